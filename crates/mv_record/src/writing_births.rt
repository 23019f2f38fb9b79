//! Writing why no guest came to be.
ghost use Rattle.std.specs.Prelude.{◌≡◌, ◌++◌, OnOk};
ghost use Rattle.mv_record.specs.Spelling.{born_fault_text, read_fault_text, read_kind_text, start_fault_text, trap_text, valid_fault_text, valid_kind_text};
ghost use Rattle.mv_record.specs.Fitting.{FitsBornFault, FitsReadFault, FitsStartFault, FitsValidFault};

use crate::putting::{put_u8, put_u32, put_u64};
use mv_calls::{OutOfMemory, Trap};
use mv_syntax::{BornFault, ReadFault, ReadKind, StartFault, ValidFault, ValidKind};
use std::alloc::Global;

/// Writes a trap.
pub(crate) fn put_trap(out: &mut Vec<u8>, value: Trap) -> Result<(), OutOfMemory>
    ensures text { OnOk result (out.new.items ≡ out.old.items ++ trap_text value) }
{
    match value {
        Trap::Unreachable => put_u8(out, 0),
        Trap::DivideByZero => put_u8(out, 1),
        Trap::Overflow => put_u8(out, 2),
        Trap::Bounds => put_u8(out, 3),
        Trap::TableIndex => put_u8(out, 4),
        Trap::EmptyElement => put_u8(out, 5),
        Trap::IndirectType => put_u8(out, 6),
        Trap::Frames => put_u8(out, 7),
        Trap::Operands => put_u8(out, 8),
        Trap::Spent => put_u8(out, 9),
        Trap::OldGlobal => put_u8(out, 10),
        Trap::NotNow => put_u8(out, 11),
        Trap::CallInTransform => put_u8(out, 12),
    }
}

/// Writes what is wrong with the bytes of a module.
fn put_read_kind(out: &mut Vec<u8>, value: ReadKind) -> Result<(), OutOfMemory>
    ensures text { OnOk result (out.new.items ≡ out.old.items ++ read_kind_text value) }
{
    match value {
        ReadKind::Magic => put_u8(out, 0),
        ReadKind::Cut => put_u8(out, 1),
        ReadKind::Order => put_u8(out, 2),
        ReadKind::Size => put_u8(out, 3),
        ReadKind::Leb => put_u8(out, 4),
        ReadKind::Utf8 => put_u8(out, 5),
        ReadKind::Kind => put_u8(out, 6),
        ReadKind::Float => put_u8(out, 7),
        ReadKind::LaterFeature => put_u8(out, 8),
        ReadKind::Count => put_u8(out, 9),
        ReadKind::Limit => put_u8(out, 10),
    }
}

/// Writes why a module is not valid.
fn put_valid_kind(out: &mut Vec<u8>, value: ValidKind) -> Result<(), OutOfMemory>
    ensures text { OnOk result (out.new.items ≡ out.old.items ++ valid_kind_text value) }
{
    match value {
        ValidKind::TypeIndex => put_u8(out, 0),
        ValidKind::FuncIndex => put_u8(out, 1),
        ValidKind::NoTable => put_u8(out, 2),
        ValidKind::NoMemory => put_u8(out, 3),
        ValidKind::GlobalIndex => put_u8(out, 4),
        ValidKind::LocalIndex => put_u8(out, 5),
        ValidKind::LabelIndex => put_u8(out, 6),
        ValidKind::Operand => put_u8(out, 7),
        ValidKind::Immutable => put_u8(out, 8),
        ValidKind::Align => put_u8(out, 9),
        ValidKind::Constant => put_u8(out, 10),
        ValidKind::Limits => put_u8(out, 11),
        ValidKind::ExportName => put_u8(out, 12),
        ValidKind::StartType => put_u8(out, 13),
    }
}

/// Writes the first fault of the bytes of a module.
fn put_read_fault(out: &mut Vec<u8>, value: ReadFault) -> Result<(), OutOfMemory>
    ensures fits { OnOk result (FitsReadFault value) }
    ensures text { OnOk result (out.new.items ≡ out.old.items ++ read_fault_text value) }
{
    put_read_kind(out, value.kind)?;
    put_u64(out, value.place)
}

/// Writes the first fault of a module that can be read.
fn put_valid_fault(out: &mut Vec<u8>, value: ValidFault) -> Result<(), OutOfMemory>
    ensures fits { OnOk result (FitsValidFault value) }
    ensures text { OnOk result (out.new.items ≡ out.old.items ++ valid_fault_text value) }
{
    put_u8(out, value.part)?;
    put_u32(out, value.item)?;
    put_u32(out, value.at)?;
    put_valid_kind(out, value.kind)
}

/// Writes why a module cannot be started.
fn put_start_fault(out: &mut Vec<u8>, value: StartFault) -> Result<(), OutOfMemory>
    ensures fits { OnOk result (FitsStartFault value) }
    ensures text { OnOk result (out.new.items ≡ out.old.items ++ start_fault_text value) }
{
    match value {
        StartFault::NoEntry => put_u8(out, 0),
        StartFault::UnknownImport { import } => {
            put_u8(out, 1)?;
            put_u32(out, import)
        }
        StartFault::ImportType { import } => {
            put_u8(out, 2)?;
            put_u32(out, import)
        }
        StartFault::ElementBounds { segment } => {
            put_u8(out, 3)?;
            put_u32(out, segment)
        }
        StartFault::DataBounds { segment } => {
            put_u8(out, 4)?;
            put_u32(out, segment)
        }
        StartFault::Trap(trap) => {
            put_u8(out, 5)?;
            put_trap(out, trap)
        }
    }
}

/// Writes why no guest came to be.
pub(crate) fn put_born_fault(out: &mut Vec<u8>, value: BornFault) -> Result<(), OutOfMemory>
    ensures fits { OnOk result (FitsBornFault value) }
    ensures text { OnOk result (out.new.items ≡ out.old.items ++ born_fault_text value) }
{
    match value {
        BornFault::Read(fault) => {
            put_u8(out, 0)?;
            put_read_fault(out, fault)
        }
        BornFault::Valid(fault) => {
            put_u8(out, 1)?;
            put_valid_fault(out, fault)
        }
        BornFault::Start(fault) => {
            put_u8(out, 2)?;
            put_start_fault(out, fault)
        }
        BornFault::NoTransform => put_u8(out, 3),
        BornFault::NoResume => put_u8(out, 4),
        BornFault::Transform(trap) => {
            put_u8(out, 5)?;
            put_trap(out, trap)
        }
        BornFault::Code(code) => {
            put_u8(out, 6)?;
            put_u32(out, code)
        }
    }
}
