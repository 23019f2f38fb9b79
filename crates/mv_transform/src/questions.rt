//! What a transformer asks of the old guest, and what it is answered.
ghost use Rattle.std.specs.Prelude.{◌≡◌, ◌+◌, ◌≤◌, ◌<◌, ◌&&◌, ◌∷◌, [], Some, IfOk, IfErr, OnOk, length, slice_get, slice_range};
ghost use Rattle.mv_calls.specs.Or.{IfFault};
ghost use Rattle.mv_syntax.specs.declared.ops.ValType.TheVariants.{I32 as i32_type};
ghost use Rattle.mv_memory.specs.Bytes.{written};
ghost use Rattle.mv_memory.specs.Memory.{page_count};
ghost use Rattle.mv_execution.specs.Instance.{program_of};
ghost use Rattle.mv_execution.specs.Run.{answered};
ghost use Rattle.mv_imports.specs.declared.function.HostFunction.TheVariants as Function;
ghost use Rattle.mv_imports.specs.Functions.{params_of};
ghost use Rattle.mv_wasi.specs.Machines.{argument_at, function_at, made_at, with_bytes};
ghost use Rattle.mv_wasi.specs.Known.{AreKnown, IsWaitingFor};
ghost use Rattle.mv_wasi.specs.Ranges.{is_within, number_at};
ghost use Rattle.mv_transform.specs.Shown.{shown, WaitsForImport};
ghost use Rattle.mv_transform.specs.Transforms.{GoesOn, Fails, exported_globals, old_global as global_of, global_met, read_met, met_made};

use mv_calls::{Or, OutOfMemory, Trap};
use mv_imports::{HostFunction, find_function};
use mv_machine::Machine;
use mv_memory::Memory;
use mv_syntax::Export;
use mv_validator::ValidModule;
use mv_wasi::push_number;
use std::alloc::Global;

/// The kind of an exported global (WebAssembly Core 1.0, 5.5.10).
const GLOBAL_KIND: u8 = 3;

/// The function of this host that this import is.
fn function_of(machine: &Machine, import: u32) -> Option<HostFunction>
    ensures { result ≡ function_at machine.now.parts import }
{
    let module: &ValidModule = machine.module();
    match module.module().imports.slice().get(import as usize) {
        None => None,
        Some(found) => find_function(found.module.slice(), found.name.slice()),
    }
}

/// An argument of type i32 of the question that waits, the first one is 0.
fn word(machine: &Machine, function: HostFunction, n: u32) -> u32
    requires waits { IsWaitingFor machine.now function }
    requires word { slice_get (params_of function) n ≡ Some i32_type }
    ensures { result ≡ argument_at machine.now.parts machine.now.config n }
{
    let value = machine.arg(n);
    value as u32
}

/// `live.old_pages`: the size of the old memory.
fn answer_pages(machine: &mut Machine, old: &Machine)
    requires waits { IsWaitingFor machine.old Function.OldPages }
    ensures { machine.new ≡ record machine.old { config = answered (program_of machine.old.parts) (page_count old.now.config.store.memory ∷ []) machine.old.config } }
{
    let pages = old.memory().pages();
    machine.push_result(Some(u64::from(pages)));
}

/// Whether a range is in bounds.
fn lies_within(memory: &Memory, place: u32, len: u32) -> bool
    ensures { result ≡ is_within memory.now.bytes place len }
{
    u64::from(place) + u64::from(len) <= u64::from(memory.pages()) * 65_536
}

/// Whether bytes can be copied: they are in bounds of the old memory, and where they go in bounds of the new one.
fn can_copy(machine: &Machine, old: &Machine, src: u32, dst: u32, len: u32) -> bool
    ensures { result ≡ (is_within old.now.config.store.memory.bytes src len && is_within machine.now.config.store.memory.bytes dst len) }
{
    lies_within(old.memory(), src, len) && lies_within(machine.memory(), dst, len)
}

/// A byte of the memory, so many behind a place.
fn byte_at(memory: &Memory, place: u32, index: u32) -> u8
    requires { place + index < length memory.now.bytes }
    ensures { result ≡ number_at memory.now.bytes (place + index) 1 }
{
    match memory.load(u64::from(place) + u64::from(index), 1) {
        Ok(byte) => byte as u8,
        Err(_) => unreachable!(),
    }
}

/// The bytes of a range.
fn bytes_in(alloc: Global, memory: &Memory, place: u32, len: u32) -> Result<Vec<u8>, OutOfMemory>
    requires { place + len ≤ length memory.now.bytes }
    ensures { IfOk result (λ bytes. bytes.items ≡ slice_range memory.now.bytes place (place + len)) }
{
    let mut bytes = Vec::new(alloc);
    for index in 0..len {
        bytes.push(byte_at(memory, place, index))?;
    }
    Ok(bytes)
}

/// Copies bytes of the old memory. Both ranges are in bounds.
fn copy_bytes(
    alloc: Global,
    machine: &mut Machine,
    old: &Machine,
    src: u32,
    dst: u32,
    len: u32,
) -> Result<(), OutOfMemory>
    requires from { src + len ≤ length old.now.config.store.memory.bytes }
    requires to { dst + len ≤ length machine.old.config.store.memory.bytes }
    ensures ok { OnOk result (machine.new ≡ record machine.old { config = with_bytes (written machine.old.config.store.memory.bytes dst (slice_range old.now.config.store.memory.bytes src (src + len))) machine.old.config }) }
    ensures parts { machine.new.parts ≡ machine.old.parts }
{
    let bytes = bytes_in(alloc, old.memory(), src, len)?;
    let memory = machine.memory_mut();
    match memory.fill_from(alloc, u64::from(dst), &bytes) {
        Ok(()) => Ok(()),
        Err(Or::OutOfMemory) => Err(OutOfMemory),
        Err(Or::Fault(_)) => unreachable!(),
    }
}

/// `live.old_read`: bytes of the old memory, where both ranges are in bounds.
fn answer_read(alloc: Global, machine: &mut Machine, old: &Machine) -> Result<(), OutOfMemory>
    requires waits { IsWaitingFor machine.old Function.OldRead }
    ensures ok { OnOk result (read_met (program_of machine.old.parts) (shown old.now) machine.old.config (argument_at machine.old.parts machine.old.config 0) (argument_at machine.old.parts machine.old.config 1) (argument_at machine.old.parts machine.old.config 2) ≡ GoesOn machine.new.config) }
    ensures parts { machine.new.parts ≡ machine.old.parts }
{
    let src = word(machine, HostFunction::OldRead, 0);
    let dst = word(machine, HostFunction::OldRead, 1);
    let len = word(machine, HostFunction::OldRead, 2);
    if !can_copy(machine, old, src, dst, len) {
        push_number(machine, 1);
        return Ok(());
    }
    copy_bytes(alloc, machine, old, src, dst, len)?;
    push_number(machine, 0);
    Ok(())
}

/// The index of the exported global with this number, in the order of the exports.
fn exported_global(exports: &[Export], n: u32) -> Option<u32>
    ensures { result ≡ slice_get (exported_globals exports.now) n }
{
    let mut left = n;
    for export in exports {
        if export.kind == GLOBAL_KIND {
            if left == 0 {
                return Some(export.index);
            }
            left -= 1;
        }
    }
    None
}

/// The value of the exported global with this number.
fn old_global(old: &Machine, n: u32) -> Option<u64>
    ensures { result ≡ global_of (shown old.now) n }
{
    old.keeps();
    let index = exported_global(old.module().module().exports.slice(), n)?;
    Some(old.global(index))
}

/// `live.old_global`: an exported global of the old module.
fn answer_global(machine: &mut Machine, old: &Machine) -> Result<(), Trap>
    requires waits { IsWaitingFor machine.old Function.OldGlobal }
    ensures ok { OnOk result (global_met (program_of machine.old.parts) machine.old.config (global_of (shown old.now) (argument_at machine.old.parts machine.old.config 0)) ≡ GoesOn machine.new.config) }
    ensures fault { IfErr result (λ trap. global_met (program_of machine.old.parts) machine.old.config (global_of (shown old.now) (argument_at machine.old.parts machine.old.config 0)) ≡ Fails trap) }
    ensures parts { machine.new.parts ≡ machine.old.parts }
{
    let n = word(machine, HostFunction::OldGlobal, 0);
    let Some(value) = old_global(old, n) else {
        return Err(Trap::OldGlobal);
    };
    machine.push_result(Some(value));
    Ok(())
}

/// Answers the call of this import, at which the transformer stands. Each that is no question of a transformer traps.
pub fn answer(
    alloc: Global,
    machine: &mut Machine,
    old: &Machine,
    import: u32,
) -> Result<(), Or<Trap>>
    requires known { AreKnown machine.old.parts }
    requires waits { machine.old.config.waiting ≡ Some import }
    requires import { WaitsForImport machine.old.parts machine.old.config.waiting }
    ensures ok { OnOk result (met_made (program_of machine.old.parts) (shown old.now) machine.old.config (made_at machine.old.parts [] import machine.old.config).0 ≡ GoesOn machine.new.config) }
    ensures fault { IfFault result (λ trap. met_made (program_of machine.old.parts) (shown old.now) machine.old.config (made_at machine.old.parts [] import machine.old.config).0 ≡ Fails trap) }
    ensures parts { machine.new.parts ≡ machine.old.parts }
{
    let Some(function) = function_of(machine, import) else {
        unreachable!()
    };
    match function {
        HostFunction::OldPages => {
            answer_pages(machine, old);
            Ok(())
        }
        HostFunction::OldRead => {
            answer_read(alloc, machine, old)?;
            Ok(())
        }
        HostFunction::OldGlobal => match answer_global(machine, old) {
            Ok(()) => Ok(()),
            Err(trap) => Err(Or::Fault(trap)),
        },
        _ => Err(Or::Fault(Trap::CallInTransform)),
    }
}
