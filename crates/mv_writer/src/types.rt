//! Types.
ghost use Rattle.std.specs.Prelude.{◌≡◌, ◌++◌, OnOk};
ghost use Rattle.mv_writer.specs.Written.{type_code as code_of, flag as flag_of, written_func_type, written_limits, written_table, written_block};

use crate::numbers::push_number;
use crate::vectors::{Write, push_vector};
use mv_calls::OutOfMemory;
use mv_syntax::{FuncType, Limits, ValType};
use std::alloc::Global;

/// The byte that stands for a type of values.
pub fn type_code(vtype: ValType) -> u8
    ensures { result ≡ code_of vtype }
{
    match vtype {
        ValType::I32 => 0x7f,
        ValType::I64 => 0x7e,
    }
}

/// The byte that stands for yes or no.
pub fn flag(yes: bool) -> u8
    ensures { result ≡ flag_of yes }
{
    if yes { 1 } else { 0 }
}

/// Appends the type of a block: its result, or that there is none.
pub fn push_block_type(out: &mut Vec<u8>, block: Option<ValType>) -> Result<(), OutOfMemory>
    ensures { OnOk result (out.new.items ≡ out.old.items ++ written_block block) }
{
    match block {
        None => out.push(0x40)?,
        Some(vtype) => out.push(type_code(vtype))?,
    }
    Ok(())
}

impl Write for FuncType {
    ghost written = { written_func_type };

    fn write(&self, alloc: Global, out: &mut Vec<u8>) -> Result<(), OutOfMemory> {
        out.push(0x60)?;
        push_vector(alloc, out, self.params.slice())?;
        match self.result {
            None => push_number(out, 0),
            Some(vtype) => {
                push_number(out, 1)?;
                vtype.write(alloc, out)
            }
        }
    }
}

/// Appends the limits of a table or a memory.
pub fn push_limits(out: &mut Vec<u8>, limits: Limits) -> Result<(), OutOfMemory>
    ensures { OnOk result (out.new.items ≡ out.old.items ++ written_limits limits) }
{
    out.push(flag(limits.max.is_some()))?;
    push_number(out, u64::from(limits.min))?;
    match limits.max {
        None => Ok(()),
        Some(max) => push_number(out, u64::from(max)),
    }
}

/// Appends a table of functions.
pub fn push_table(out: &mut Vec<u8>, limits: Limits) -> Result<(), OutOfMemory>
    ensures { OnOk result (out.new.items ≡ out.old.items ++ written_table limits) }
{
    out.push(0x70)?;
    push_limits(out, limits)
}
