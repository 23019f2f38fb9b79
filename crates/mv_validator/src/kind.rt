// Why an instruction is faulty where it stands.

ghost use Rattle.std.specs.Prelude.{◌≡◌, Some, None};
ghost use Rattle.mv_validator.specs.Faults.{unless as unless_there, use_fault as use_faults};
ghost use Rattle.mv_validator.specs.ControlFrames.{all_open as are_open, index_fault_among, kind_among};
ghost use Rattle.mv_validator.specs.Valid.{context_in};

use crate::instr_type::{is_natural, local_type, type_index};
use mv_syntax::{FuncType, Instr, Locals, Module, ValidKind};

// The kind, where something isn't there.
pub fn unless(kind: ValidKind, there: bool) -> Option<ValidKind>
    ensures { result ≡ unless_there kind there }
{
    if there { None } else { Some(kind) }
}

// Whether each of the labels is one of so many.
fn all_open(labels: &[u32], depth: usize) -> bool
    ensures { result ≡ are_open labels.now depth }
{
    for label in labels {
        if *label as usize >= depth {
            return false;
        }
    }
    true
}

// What the instruction names, or stands on, and isn't there.
fn index_fault(
    module: &Module,
    ftype: &FuncType,
    locals: &Locals,
    depth: usize,
    instr: &Instr,
) -> Option<ValidKind>
    ensures { result ≡ index_fault_among (context_in «module».now ftype.now locals.now) depth instr.now }
{
    match instr {
        Instr::Br(n) => unless(ValidKind::LabelIndex, (*n as usize) < depth),
        Instr::BrIf(n) => unless(ValidKind::LabelIndex, (*n as usize) < depth),
        Instr::BrTable { labels, last } => {
            let there = all_open(labels.slice(), depth) && (*last as usize) < depth;
            unless(ValidKind::LabelIndex, there)
        }
        Instr::Call(f) => match type_index(module, *f) {
            None => Some(ValidKind::FuncIndex),
            Some(_) => None,
        },
        Instr::CallIndirect(x) => match module.types.slice().get(*x as usize) {
            None => Some(ValidKind::TypeIndex),
            Some(_) => unless(ValidKind::NoTable, module.table.is_some()),
        },
        Instr::LocalGet(x) | Instr::LocalSet(x) | Instr::LocalTee(x) => {
            match local_type(ftype, locals, *x) {
                None => Some(ValidKind::LocalIndex),
                Some(_) => None,
            }
        }
        Instr::GlobalGet(x) | Instr::GlobalSet(x) => match module.globals.slice().get(*x as usize) {
            None => Some(ValidKind::GlobalIndex),
            Some(_) => None,
        },
        Instr::Load { .. } | Instr::Store { .. } | Instr::MemorySize | Instr::MemoryGrow => unless(
            ValidKind::NoMemory,
            module.memory.is_some(),
        ),
        _ => None,
    }
}

// What the instruction names and may not use so.
fn use_fault(module: &Module, ftype: &FuncType, locals: &Locals, instr: &Instr) -> Option<ValidKind>
    ensures { result ≡ use_faults (context_in «module».now ftype.now locals.now) instr.now }
{
    match instr {
        Instr::GlobalSet(x) => match module.globals.slice().get(*x as usize) {
            None => None,
            Some(global) => unless(ValidKind::Immutable, global.mutable),
        },
        Instr::Load { bytes, align, .. } => unless(ValidKind::Align, is_natural(*align, *bytes)),
        Instr::Store { bytes, align, .. } => unless(ValidKind::Align, is_natural(*align, *bytes)),
        _ => None,
    }
}

// Why the instruction is faulty where so many blocks are open.
pub fn kind_of(
    module: &Module,
    ftype: &FuncType,
    locals: &Locals,
    depth: usize,
    instr: &Instr,
) -> ValidKind
    ensures { result ≡ kind_among (context_in «module».now ftype.now locals.now) depth instr.now }
{
    match index_fault(module, ftype, locals, depth, instr) {
        Some(kind) => kind,
        None => match use_fault(module, ftype, locals, instr) {
            Some(kind) => kind,
            None => ValidKind::Operand,
        },
    }
}
