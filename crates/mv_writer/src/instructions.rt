//! Instructions.
ghost use Rattle.std.specs.Prelude.{◌≡◌, ◌++◌, OnOk};
ghost use Rattle.mv_syntax.specs.declared.instr.Instr.TheVariants.{Const};
ghost use Rattle.mv_writer.specs.Written.{short_u32, written_immediates, written_instruction, written_code};

use crate::numbers::{push_number, push_s32, push_s64};
use crate::opcodes::opcode;
use crate::types::push_block_type;
use crate::vectors::{Write, push_each, push_vector};
use mv_calls::OutOfMemory;
use mv_syntax::{Code, Instr, ValType};
use std::alloc::Global;

/// Appends the alignment and the offset of an access to the memory.
fn push_access(out: &mut Vec<u8>, align: u32, offset: u32) -> Result<(), OutOfMemory>
    ensures { OnOk result (out.new.items ≡ out.old.items ++ (short_u32 align ++ short_u32 offset)) }
{
    push_number(out, u64::from(align))?;
    push_number(out, u64::from(offset))
}

/// Appends a constant; one of 32 bits is the low half of its value.
fn push_const(out: &mut Vec<u8>, vtype: ValType, value: u64) -> Result<(), OutOfMemory>
    ensures { OnOk result (out.new.items ≡ out.old.items ++ written_immediates (Const vtype value)) }
{
    match vtype {
        ValType::I32 => push_s32(out, value % 0x1_0000_0000),
        ValType::I64 => push_s64(out, value),
    }
}

/// Appends what follows the opcode of an instruction.
fn push_immediates(alloc: Global, out: &mut Vec<u8>, instr: &Instr) -> Result<(), OutOfMemory>
    ensures { OnOk result (out.new.items ≡ out.old.items ++ written_immediates instr.now) }
{
    match instr {
        Instr::Block(block) | Instr::Loop(block) | Instr::If(block) => push_block_type(out, *block),
        Instr::Br(index)
        | Instr::BrIf(index)
        | Instr::Call(index)
        | Instr::LocalGet(index)
        | Instr::LocalSet(index)
        | Instr::LocalTee(index)
        | Instr::GlobalGet(index)
        | Instr::GlobalSet(index) => push_number(out, u64::from(*index)),
        Instr::BrTable { labels, last } => {
            push_vector(alloc, out, labels.slice())?;
            push_number(out, u64::from(*last))
        }
        Instr::CallIndirect(ftype) => {
            push_number(out, u64::from(*ftype))?;
            out.push(0)?;
            Ok(())
        }
        Instr::Load { align, offset, .. } | Instr::Store { align, offset, .. } => {
            push_access(out, *align, *offset)
        }
        Instr::MemorySize | Instr::MemoryGrow => {
            out.push(0)?;
            Ok(())
        }
        Instr::Const { vtype, value } => push_const(out, *vtype, *value),
        _ => Ok(()),
    }
}

impl Write for Instr {
    ghost written = { written_instruction };

    fn write(&self, alloc: Global, out: &mut Vec<u8>) -> Result<(), OutOfMemory> {
        out.push(opcode(self))?;
        push_immediates(alloc, out, self)
    }
}

/// Appends the code of a body or of a constant, with its last `end`.
pub fn push_code(alloc: Global, out: &mut Vec<u8>, code: &Code) -> Result<(), OutOfMemory>
    ensures { OnOk result (out.new.items ≡ out.old.items ++ written_code code.now) }
{
    push_each(alloc, out, code.slice())
}
