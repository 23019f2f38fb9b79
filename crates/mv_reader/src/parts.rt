//! What the sections hold.
ghost use Rattle.std.specs.Prelude.{◌≡◌, ◌≤◌, length};
ghost use Rattle.mv_syntax.specs.Forms.{means};
ghost use Rattle.mv_syntax.specs.Numbers.{u32 as number32};
ghost use Rattle.mv_syntax.specs.Types.{only};
ghost use Rattle.mv_syntax.specs.Parts.{import_, elem_type_of, table, memory, is_mutable, global, export, element, segment};
ghost use Rattle.mv_syntax.specs.Reading.{Reads};

use crate::bodies::code_at;
use crate::cursor::{Cursor, fault, judged};
use crate::instructions::indices_at;
use crate::names::name_at;
use crate::numbers::u32_at;
use crate::types::{limits_at, val_type_at};
use crate::vectors::Read;
use mv_calls::{Bytes, Or};
use mv_syntax::{
    Element, Export, Func, Global as GlobalPart, Import, Limits, ReadFault, ReadKind, Segment,
    ValType, ValTypes,
};
use std::alloc::Global;

#[tactic(auto, unfolding(mv_syntax::specs::Parts::import_))]
fn import_at(alloc: Global, at: &mut Cursor<'_>) -> Result<Import, Or<ReadFault>>
    ensures { Reads (λ x. x) result at.new (import_.reads at.old) }
{
    let module = name_at(alloc, at)?;
    let name = name_at(alloc, at)?;
    let start = at.place();
    if at.byte()? != 0 {
        return fault(start, ReadKind::Kind);
    }
    let ftype = u32_at(at)?;
    Ok(Import {
        module,
        name,
        ftype,
    })
}

/// The only type of elements is that of functions.
fn elem_type_of(byte: u8) -> Result<u8, ReadKind>
    ensures { result ≡ elem_type_of byte }
{
    match byte {
        0x70 => Ok(byte),
        0x7d | 0x7c => Err(ReadKind::Float),
        _ => Err(ReadKind::LaterFeature),
    }
}

#[tactic(auto, unfolding(mv_syntax::specs::Parts::table))]
pub fn table_at(at: &mut Cursor<'_>) -> Result<Limits, Or<ReadFault>>
    ensures { Reads (λ x. x) result at.new (table.reads at.old) }
{
    let start = at.place();
    let byte = at.byte()?;
    judged(start, elem_type_of(byte))?;
    limits_at(65_536, at)
}

#[tactic(auto, unfolding(mv_syntax::specs::Parts::memory))]
pub fn memory_at(at: &mut Cursor<'_>) -> Result<Limits, Or<ReadFault>>
    ensures { Reads (λ x. x) result at.new (memory.reads at.old) }
{
    limits_at(1024, at)
}

fn is_mutable(byte: u8) -> Result<bool, ReadKind>
    ensures { result ≡ is_mutable byte }
{
    match byte {
        0 => Ok(false),
        1 => Ok(true),
        _ => Err(ReadKind::Kind),
    }
}

#[tactic(auto, unfolding(mv_syntax::specs::Parts::global))]
fn global_at(alloc: Global, at: &mut Cursor<'_>) -> Result<GlobalPart, Or<ReadFault>>
    ensures { Reads (λ x. x) result at.new (global.reads at.old) }
{
    let vtype = val_type_at(at)?;
    let start = at.place();
    let byte = at.byte()?;
    let mutable = judged(start, is_mutable(byte))?;
    let init = code_at(alloc, at)?;
    Ok(GlobalPart {
        vtype,
        mutable,
        init,
    })
}

#[tactic(auto, unfolding(mv_syntax::specs::Parts::export))]
fn export_at(alloc: Global, at: &mut Cursor<'_>) -> Result<Export, Or<ReadFault>>
    ensures { Reads (λ x. x) result at.new (export.reads at.old) }
{
    let name = name_at(alloc, at)?;
    let start = at.place();
    let kind = at.byte()?;
    if kind > 3 {
        return fault(start, ReadKind::Kind);
    }
    let index = u32_at(at)?;
    Ok(Export { name, kind, index })
}

/// The index of the one table or memory.
fn zero_at(at: &mut Cursor<'_>) -> Result<(), Or<ReadFault>>
    ensures { Reads (λ _. 0) result at.new ((means number32 (only 0 ReadKind.LaterFeature)).reads at.old) }
{
    let start = at.place();
    if u32_at(at)? != 0 {
        return fault(start, ReadKind::LaterFeature);
    }
    Ok(())
}

#[tactic(auto, unfolding(mv_syntax::specs::Parts::element))]
fn element_at(alloc: Global, at: &mut Cursor<'_>) -> Result<Element, Or<ReadFault>>
    ensures { Reads (λ x. x) result at.new (element.reads at.old) }
{
    zero_at(at)?;
    let offset = code_at(alloc, at)?;
    let funcs = indices_at(alloc, at)?;
    Ok(Element { offset, funcs })
}

#[tactic(auto, unfolding(mv_syntax::specs::Parts::segment))]
fn segment_at(alloc: Global, at: &mut Cursor<'_>) -> Result<Segment, Or<ReadFault>>
    ensures { Reads (λ x. x) result at.new (segment.reads at.old) }
{
    zero_at(at)?;
    let offset = code_at(alloc, at)?;
    let count = u32_at(at)?;
    let bytes = Bytes::from_slice(alloc, at.bytes(count)?)?;
    Ok(Segment { offset, bytes })
}

impl Read for Import {
    ghost form = { import_ };

    fn read(alloc: Global, at: &mut Cursor<'_>) -> Result<Import, Or<ReadFault>> {
        import_at(alloc, at)
    }
}

impl Read for GlobalPart {
    ghost form = { global };

    fn read(alloc: Global, at: &mut Cursor<'_>) -> Result<GlobalPart, Or<ReadFault>> {
        global_at(alloc, at)
    }
}

impl Read for Export {
    ghost form = { export };

    fn read(alloc: Global, at: &mut Cursor<'_>) -> Result<Export, Or<ReadFault>> {
        export_at(alloc, at)
    }
}

impl Read for Element {
    ghost form = { element };

    fn read(alloc: Global, at: &mut Cursor<'_>) -> Result<Element, Or<ReadFault>> {
        element_at(alloc, at)
    }
}

impl Read for Segment {
    ghost form = { segment };

    fn read(alloc: Global, at: &mut Cursor<'_>) -> Result<Segment, Or<ReadFault>> {
        segment_at(alloc, at)
    }
}
