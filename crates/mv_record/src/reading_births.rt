//! Reading why no guest came to be.
ghost use Rattle.std.specs.Prelude.{◌≡◌};
ghost use Rattle.mv_record.specs.Reading.{GivesField, born_fault_at, code_born_fault_at, data_bounds_start_fault_at, element_bounds_start_fault_at, import_type_start_fault_at, read_born_fault_at, read_fault_at, read_kind_at, start_born_fault_at, start_fault_at, transform_born_fault_at, trap_at, trap_start_fault_at, unknown_import_start_fault_at, valid_born_fault_at, valid_fault_at, valid_kind_at};

use crate::fault::BodyFault;
use crate::fields::{Field, u8_at, u32_at, u64_at};
use mv_calls::{Or, Trap};
use mv_syntax::{BornFault, ReadFault, ReadKind, StartFault, ValidFault, ValidKind};
use std::alloc::Global;

/// Reads a trap.
#[tactic(auto, unfolding(crate::specs::Reading::trap_at))]
pub(crate) fn trap_of(bytes: &[u8]) -> Field<'_, Trap>
    ensures { GivesField result (trap_at bytes.now) }
{
    let (code, rest) = u8_at(bytes)?;
    match code {
        0 => Ok((Trap::Unreachable, rest)),
        1 => Ok((Trap::DivideByZero, rest)),
        2 => Ok((Trap::Overflow, rest)),
        3 => Ok((Trap::Bounds, rest)),
        4 => Ok((Trap::TableIndex, rest)),
        5 => Ok((Trap::EmptyElement, rest)),
        6 => Ok((Trap::IndirectType, rest)),
        7 => Ok((Trap::Frames, rest)),
        8 => Ok((Trap::Operands, rest)),
        9 => Ok((Trap::Spent, rest)),
        10 => Ok((Trap::OldGlobal, rest)),
        11 => Ok((Trap::NotNow, rest)),
        12 => Ok((Trap::CallInTransform, rest)),
        _ => Err(Or::Fault(BodyFault::Code(bytes.len()))),
    }
}

/// Reads what is wrong with the bytes of a module.
#[tactic(auto, unfolding(crate::specs::Reading::read_kind_at))]
fn read_kind_of(bytes: &[u8]) -> Field<'_, ReadKind>
    ensures { GivesField result (read_kind_at bytes.now) }
{
    let (code, rest) = u8_at(bytes)?;
    match code {
        0 => Ok((ReadKind::Magic, rest)),
        1 => Ok((ReadKind::Cut, rest)),
        2 => Ok((ReadKind::Order, rest)),
        3 => Ok((ReadKind::Size, rest)),
        4 => Ok((ReadKind::Leb, rest)),
        5 => Ok((ReadKind::Utf8, rest)),
        6 => Ok((ReadKind::Kind, rest)),
        7 => Ok((ReadKind::Float, rest)),
        8 => Ok((ReadKind::LaterFeature, rest)),
        9 => Ok((ReadKind::Count, rest)),
        10 => Ok((ReadKind::Limit, rest)),
        _ => Err(Or::Fault(BodyFault::Code(bytes.len()))),
    }
}

/// Reads why a module is not valid.
#[tactic(auto, unfolding(crate::specs::Reading::valid_kind_at))]
fn valid_kind_of(bytes: &[u8]) -> Field<'_, ValidKind>
    ensures { GivesField result (valid_kind_at bytes.now) }
{
    let (code, rest) = u8_at(bytes)?;
    match code {
        0 => Ok((ValidKind::TypeIndex, rest)),
        1 => Ok((ValidKind::FuncIndex, rest)),
        2 => Ok((ValidKind::NoTable, rest)),
        3 => Ok((ValidKind::NoMemory, rest)),
        4 => Ok((ValidKind::GlobalIndex, rest)),
        5 => Ok((ValidKind::LocalIndex, rest)),
        6 => Ok((ValidKind::LabelIndex, rest)),
        7 => Ok((ValidKind::Operand, rest)),
        8 => Ok((ValidKind::Immutable, rest)),
        9 => Ok((ValidKind::Align, rest)),
        10 => Ok((ValidKind::Constant, rest)),
        11 => Ok((ValidKind::Limits, rest)),
        12 => Ok((ValidKind::ExportName, rest)),
        13 => Ok((ValidKind::StartType, rest)),
        _ => Err(Or::Fault(BodyFault::Code(bytes.len()))),
    }
}

/// Reads the first fault of the bytes of a module.
#[tactic(auto, unfolding(crate::specs::Reading::read_fault_at))]
fn read_fault_of(bytes: &[u8]) -> Field<'_, ReadFault>
    ensures { GivesField result (read_fault_at bytes.now) }
{
    let (kind, rest) = read_kind_of(bytes)?;
    let (place, rest) = u64_at(rest)?;
    Ok((ReadFault { kind, place }, rest))
}

/// Reads the first fault of a module that can be read.
#[tactic(auto, unfolding(crate::specs::Reading::valid_fault_at))]
fn valid_fault_of(bytes: &[u8]) -> Field<'_, ValidFault>
    ensures { GivesField result (valid_fault_at bytes.now) }
{
    let (part, rest) = u8_at(bytes)?;
    let (item, rest) = u32_at(rest)?;
    let (at, rest) = u32_at(rest)?;
    let (kind, rest) = valid_kind_of(rest)?;
    Ok((
        ValidFault {
            part,
            item,
            at,
            kind,
        },
        rest,
    ))
}

#[tactic(auto, unfolding(crate::specs::Reading::unknown_import_start_fault_at))]
fn unknown_import_start_fault_of(bytes: &[u8]) -> Field<'_, StartFault>
    ensures { GivesField result (unknown_import_start_fault_at bytes.now) }
{
    let (import, rest) = u32_at(bytes)?;
    Ok((StartFault::UnknownImport { import }, rest))
}

#[tactic(auto, unfolding(crate::specs::Reading::import_type_start_fault_at))]
fn import_type_start_fault_of(bytes: &[u8]) -> Field<'_, StartFault>
    ensures { GivesField result (import_type_start_fault_at bytes.now) }
{
    let (import, rest) = u32_at(bytes)?;
    Ok((StartFault::ImportType { import }, rest))
}

#[tactic(auto, unfolding(crate::specs::Reading::element_bounds_start_fault_at))]
fn element_bounds_start_fault_of(bytes: &[u8]) -> Field<'_, StartFault>
    ensures { GivesField result (element_bounds_start_fault_at bytes.now) }
{
    let (segment, rest) = u32_at(bytes)?;
    Ok((StartFault::ElementBounds { segment }, rest))
}

#[tactic(auto, unfolding(crate::specs::Reading::data_bounds_start_fault_at))]
fn data_bounds_start_fault_of(bytes: &[u8]) -> Field<'_, StartFault>
    ensures { GivesField result (data_bounds_start_fault_at bytes.now) }
{
    let (segment, rest) = u32_at(bytes)?;
    Ok((StartFault::DataBounds { segment }, rest))
}

#[tactic(auto, unfolding(crate::specs::Reading::trap_start_fault_at))]
fn trap_start_fault_of(bytes: &[u8]) -> Field<'_, StartFault>
    ensures { GivesField result (trap_start_fault_at bytes.now) }
{
    let (trap, rest) = trap_of(bytes)?;
    Ok((StartFault::Trap(trap), rest))
}

/// Reads why a module cannot be started.
#[tactic(auto, unfolding(crate::specs::Reading::start_fault_at))]
fn start_fault_of(bytes: &[u8]) -> Field<'_, StartFault>
    ensures { GivesField result (start_fault_at bytes.now) }
{
    let (code, rest) = u8_at(bytes)?;
    match code {
        0 => Ok((StartFault::NoEntry, rest)),
        1 => unknown_import_start_fault_of(rest),
        2 => import_type_start_fault_of(rest),
        3 => element_bounds_start_fault_of(rest),
        4 => data_bounds_start_fault_of(rest),
        5 => trap_start_fault_of(rest),
        _ => Err(Or::Fault(BodyFault::Code(bytes.len()))),
    }
}

#[tactic(auto, unfolding(crate::specs::Reading::read_born_fault_at))]
fn read_born_fault_of(bytes: &[u8]) -> Field<'_, BornFault>
    ensures { GivesField result (read_born_fault_at bytes.now) }
{
    let (fault, rest) = read_fault_of(bytes)?;
    Ok((BornFault::Read(fault), rest))
}

#[tactic(auto, unfolding(crate::specs::Reading::valid_born_fault_at))]
fn valid_born_fault_of(bytes: &[u8]) -> Field<'_, BornFault>
    ensures { GivesField result (valid_born_fault_at bytes.now) }
{
    let (fault, rest) = valid_fault_of(bytes)?;
    Ok((BornFault::Valid(fault), rest))
}

#[tactic(auto, unfolding(crate::specs::Reading::start_born_fault_at))]
fn start_born_fault_of(bytes: &[u8]) -> Field<'_, BornFault>
    ensures { GivesField result (start_born_fault_at bytes.now) }
{
    let (fault, rest) = start_fault_of(bytes)?;
    Ok((BornFault::Start(fault), rest))
}

#[tactic(auto, unfolding(crate::specs::Reading::transform_born_fault_at))]
fn transform_born_fault_of(bytes: &[u8]) -> Field<'_, BornFault>
    ensures { GivesField result (transform_born_fault_at bytes.now) }
{
    let (trap, rest) = trap_of(bytes)?;
    Ok((BornFault::Transform(trap), rest))
}

#[tactic(auto, unfolding(crate::specs::Reading::code_born_fault_at))]
fn code_born_fault_of(bytes: &[u8]) -> Field<'_, BornFault>
    ensures { GivesField result (code_born_fault_at bytes.now) }
{
    let (code, rest) = u32_at(bytes)?;
    Ok((BornFault::Code(code), rest))
}

/// Reads why no guest came to be.
#[tactic(auto, unfolding(crate::specs::Reading::born_fault_at))]
pub(crate) fn born_fault_of(bytes: &[u8]) -> Field<'_, BornFault>
    ensures { GivesField result (born_fault_at bytes.now) }
{
    let (code, rest) = u8_at(bytes)?;
    match code {
        0 => read_born_fault_of(rest),
        1 => valid_born_fault_of(rest),
        2 => start_born_fault_of(rest),
        3 => Ok((BornFault::NoTransform, rest)),
        4 => Ok((BornFault::NoResume, rest)),
        5 => transform_born_fault_of(rest),
        6 => code_born_fault_of(rest),
        _ => Err(Or::Fault(BodyFault::Code(bytes.len()))),
    }
}
