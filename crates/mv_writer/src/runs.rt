//! Locals, in runs of one type.
ghost use Rattle.std.specs.Prelude.{◌≡◌, List, [], ◌∷◌, ◌++◌, ◌==◌, if◌then◌else◌, OnOk, IfOk};
ghost use Rattle.mv_syntax.specs.Types.{same_type as is_same};
ghost use Rattle.mv_writer.specs.Written.{runs_of as runs_are, written_run, written_body, written_func};

use crate::instructions::push_code;
use crate::numbers::{push_number, push_sized};
use crate::types::type_code;
use crate::vectors::{Write, push_vector};
use mv_calls::OutOfMemory;
use mv_syntax::{Func, Locals, ValType};
use std::alloc::Global;
use std::marker::Model;

/// So many locals of one type.
#[derive(Debug, Drop)]
pub struct Run {
    count: u64,
    vtype: ValType,
}

impl Model for Run {
    ghost use Rattle.std.specs.Prelude.{ℕ};
    ghost use Rattle.mv_syntax.specs.declared.ops.ValType.{ValType};

    ghost Value = { ℕ × ValType };

    ghost view = { λ r. (r.count, r.vtype) };
}

impl Write for Run {
    ghost written = { written_run };

    fn write(&self, _alloc: Global, out: &mut Vec<u8>) -> Result<(), OutOfMemory> {
        push_number(out, self.count)?;
        out.push(type_code(self.vtype))?;
        Ok(())
    }
}

fn same_type(one: ValType, other: ValType) -> bool
    ensures { result ≡ is_same one other }
{
    match (one, other) {
        (ValType::I32, ValType::I32) | (ValType::I64, ValType::I64) => true,
        _ => false,
    }
}

/// Appends a run that has ended, if it has any locals.
fn push_run(runs: &mut Vec<Run>, count: u64, vtype: ValType) -> Result<(), OutOfMemory>
    ensures { OnOk result (runs.new.items ≡ (if count == 0 then runs.old.items else runs.old.items ++ (count, vtype) ∷ [])) }
{
    if count == 0 {
        return Ok(());
    }
    runs.push(Run { count, vtype })?;
    Ok(())
}

/// The locals in runs: neighbours of one type are in one run.
fn runs_of(alloc: Global, locals: &Locals) -> Result<Vec<Run>, OutOfMemory>
    ensures { IfOk result (λ v. v.items ≡ runs_are locals.now) }
{
    let mut runs = Vec::new(alloc);
    let mut start = 0;
    let mut count = 0;
    let mut vtype = ValType::I32;
    for run in locals.runs() {
        let more = (run.end - start) as u64;
        if same_type(vtype, run.vtype) {
            count += more;
        } else {
            push_run(&mut runs, count, vtype)?;
            vtype = run.vtype;
            count = more;
        }
        start = run.end;
    }
    push_run(&mut runs, count, vtype)?;
    Ok(runs)
}

/// Appends the locals and the code of a function.
fn push_body(alloc: Global, out: &mut Vec<u8>, func: &Func) -> Result<(), OutOfMemory>
    ensures { OnOk result (out.new.items ≡ out.old.items ++ written_body func.now) }
{
    let runs = runs_of(alloc, &func.locals)?;
    push_vector(alloc, out, &runs)?;
    push_code(alloc, out, &func.code)
}

impl Write for Func {
    ghost written = { written_func };

    fn write(&self, alloc: Global, out: &mut Vec<u8>) -> Result<(), OutOfMemory> {
        let mut body = Vec::new(alloc);
        push_body(alloc, &mut body, self)?;
        push_sized(out, &body)
    }
}
