//! Modules.
ghost use Rattle.std.specs.Prelude.{◌≡◌, length, IfOk, Ok};
ghost use Rattle.mv_calls.specs.Or.{IsFault};
ghost use Rattle.mv_syntax.specs.Forms.{means};
ghost use Rattle.mv_syntax.specs.Sections.{Parts, nothing_yet, magic, preamble};
ghost use Rattle.mv_syntax.specs.Modules.{Spells, finished, sections_from, module_at};
ghost use Rattle.mv_syntax.specs.Reading.{Reads, Gives};
ghost use Rattle.mv_reader.specs.Held.{held};

use crate::cursor::{Cursor, fault};
use crate::draft::Draft;
use crate::sections::section_at;
use mv_calls::Or;
use mv_syntax::{Module, ReadFault, ReadKind};
use std::alloc::Global;

/// The most bytes of a file.
const MOST_BYTES: usize = 1 << 24;

/// A byte of the preamble.
fn magic_at(expected: u8, at: &mut Cursor<'_>) -> Result<(), Or<ReadFault>>
    ensures { Reads (λ _. expected) result at.new ((magic expected).reads at.old) }
{
    let start = at.place();
    if at.byte()? != expected {
        return fault(start, ReadKind::Magic);
    }
    Ok(())
}

#[tactic(auto, unfolding(mv_syntax::specs::Sections::preamble))]
fn preamble_at(at: &mut Cursor<'_>) -> Result<(), Or<ReadFault>>
    ensures { Reads (λ _. 0) result at.new (preamble.reads at.old) }
{
    magic_at(0x00, at)?;
    magic_at(0x61, at)?;
    magic_at(0x73, at)?;
    magic_at(0x6d, at)?;
    magic_at(0x01, at)?;
    magic_at(0x00, at)?;
    magic_at(0x00, at)?;
    magic_at(0x00, at)
}

/// At the end of the file each declared function has to have a body.
fn complete(draft: Draft, place: u64) -> Result<Draft, Or<ReadFault>>
    ensures { Gives (λ d. (held d).parts) result (finished place (held draft)) }
{
    if draft.funcs.slice().len() != draft.declared.len() {
        return fault(place, ReadKind::Count);
    }
    Ok(draft)
}

/// The sections up to the end of the file.
fn sections_at(alloc: Global, at: &mut Cursor<'_>) -> Result<Draft, Or<ReadFault>>
    ensures { Gives (λ d. (held d).parts) result (sections_from (length at.old.rest) nothing_yet at.old) }
{
    let mut draft = Draft::new(alloc);
    'sections: while !at.is_empty() {
        section_at(alloc, &mut draft, at)?;
    }
    complete(draft, at.place())
}

/// What the file holds.
#[tactic(auto, unfolding(mv_syntax::specs::Modules::module_at))]
fn draft_at(alloc: Global, file: &[u8]) -> Result<Draft, Or<ReadFault>>
    ensures { Gives (λ d. (held d).parts) result (module_at file.now) }
{
    if file.len() > MOST_BYTES {
        return fault(0, ReadKind::Limit);
    }
    let mut at = Cursor::new(file);
    preamble_at(&mut at)?;
    sections_at(alloc, &mut at)
}

/// The module that the file holds.
fn module_of(alloc: Global, file: &[u8]) -> Result<Module, Or<ReadFault>>
    ensures { Gives (λ m. m) result (module_at file.now) }
{
    let draft = draft_at(alloc, file)?;
    Ok(Module {
        types: draft.types,
        imports: draft.imports,
        funcs: draft.funcs,
        table: draft.table,
        memory: draft.memory,
        globals: draft.globals,
        exports: draft.exports,
        start: draft.start,
        elements: draft.elements,
        segments: draft.segments,
    })
}

/// The module that the bytes spell in the binary format of WebAssembly Core 1.0, section 5, without floating point, or
/// the first fault from the left; docs/FORMATS.md, "Modules", has a row for each kind of fault, with its place. Padded
/// numbers are read as others are, and custom sections are read past. `OutOfMemory` comes where no memory is left.
pub fn read_module(alloc: Global, bytes: &[u8]) -> Result<Module, Or<ReadFault>>
    // What is read is spelled so.
    ensures found { IfOk result (λ m. Spells bytes.now m) }
    // What is spelled so is read, unless memory runs out.
    ensures only { (m : Parts) → Spells bytes.now m → Gives (λ m. m) result (Ok m) }
    // Bytes with a fault spell no module.
    ensures refused { IsFault result → (m : Parts) → Spells bytes.now m → ⊥ }
    // Which module, or which first fault, it is.
    ensures exact { Gives (λ m. m) result (module_at bytes.now) }
{
    module_of(alloc, bytes)
}
