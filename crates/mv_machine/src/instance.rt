//! The instance of a module (WebAssembly Core 1.0, 4.5.3), before its segments are written.

ghost use Rattle.std.specs.Prelude.{◌≡◌, IfOk, map};
ghost use Rattle.mv_validator.specs.Valid.{IsValid};
ghost use Rattle.mv_execution.specs.Instance.{constant_of, memory_of, table_of, new_config};
ghost use Rattle.mv_machine.specs.States.{config_of, IsFine};

use crate::state::State;
use mv_calls::OutOfMemory;
use mv_frames::Store;
use mv_memory::Memory;
use mv_syntax::{Global, Instr, Limits, Module};
use std::alloc::Global as Allocator;

/// What a global begins with: its initial expression is one constant.
fn initial_value(global: &Global) -> u64
    ensures { result ≡ constant_of global.now.init }
{
    match global.init.slice() {
        [Instr::Const { value, .. }, ..] => *value,
        _ => 0,
    }
}

fn new_globals(alloc: Allocator, globals: &[Global]) -> Result<Vec<u64>, OutOfMemory>
    ensures { IfOk result (λ values. values.items ≡ map (λ g. constant_of g.init) globals.now) }
{
    let mut values = Vec::with_capacity(alloc, globals.len())?;
    for global in globals {
        values.push(initial_value(global))?;
    }
    Ok(values)
}

/// A module without a memory has one of no pages.
fn new_memory(alloc: Allocator, module: &Module) -> Result<Memory, OutOfMemory>
    requires { IsValid «module».now }
    ensures { IfOk result (λ memory. memory ≡ memory_of («module».now).memory) }
{
    module.keeps();
    match module.memory {
        None => Memory::new(alloc, 0, Some(0)),
        Some(limits) => Memory::new(alloc, limits.min, limits.max),
    }
}

/// A table of which no entry holds a function.
fn new_table(alloc: Allocator, limits: Option<Limits>) -> Result<Vec<Option<u32>>, OutOfMemory>
    ensures { IfOk result (λ table. table.items ≡ table_of limits) }
{
    let size = limits.map_or(0, |limits| limits.min);
    let mut table = Vec::with_capacity(alloc, size as usize)?;
    for _ in 0..size {
        table.push(None)?;
    }
    Ok(table)
}

/// The state before anything is entered.
pub fn new_state(alloc: Allocator, module: &Module) -> Result<State, OutOfMemory>
    requires valid { IsValid «module».now }
    ensures state { IfOk result (λ state. config_of «module».now state ≡ new_config «module».now) }
    ensures fine { IfOk result (λ state. IsFine «module».now state) }
{
    module.keeps();
    let store = Store {
        memory: new_memory(alloc, module)?,
        globals: new_globals(alloc, module.globals.slice())?,
        table: new_table(alloc, module.table)?,
    };
    Ok(State {
        store,
        frames: Vec::new(alloc),
        operands: 0,
        waiting: None,
        given: None,
        gap: 0,
    })
}
