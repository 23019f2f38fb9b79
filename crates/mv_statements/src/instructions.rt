//! The immediates of instructions.
ghost use Rattle.std.specs.Prelude.{◌≡◌, [], IfOk};
ghost use Rattle.mv_syntax.specs.declared.instr.Instr.TheVariants as instrs;
ghost use Rattle.mv_statements.specs.Statements.{immediates};

use crate::lists::{indices, maybe_val_type};
use crate::words::Words;
use mv_calls::OutOfMemory;
use mv_syntax::{Indices, Instr};
use std::alloc::Global;

/// The labels of `br_table`, and the last.
#[tactic(auto, unfolding(crate::specs::Statements::immediates))]
fn labels(alloc: Global, words: &mut Words<'_>) -> Result<Instr, OutOfMemory>
    ensures { IfOk result (λ made. (made, words.new) ≡ (immediates (instrs.BrTable [] 0)).reads words.old) }
{
    let count = words.left().saturating_sub(1);
    let labels = indices(alloc, count, words)?;
    let last = words.index();
    Ok(Instr::BrTable { labels, last })
}

/// The instruction with the immediates that follow its name.
#[tactic(auto, unfolding(crate::specs::Statements::immediates))]
pub fn immediates(alloc: Global, instr: Instr, words: &mut Words<'_>) -> Result<Instr, OutOfMemory>
    ensures { IfOk result (λ made. (made, words.new) ≡ (immediates instr).reads words.old) }
{
    Ok(match instr {
        Instr::Block(_) => Instr::Block(maybe_val_type(words)),
        Instr::Loop(_) => Instr::Loop(maybe_val_type(words)),
        Instr::If(_) => Instr::If(maybe_val_type(words)),
        Instr::Br(_) => Instr::Br(words.index()),
        Instr::BrIf(_) => Instr::BrIf(words.index()),
        Instr::BrTable { .. } => labels(alloc, words)?,
        Instr::Call(_) => Instr::Call(words.index()),
        Instr::CallIndirect(_) => Instr::CallIndirect(words.index()),
        Instr::LocalGet(_) => Instr::LocalGet(words.index()),
        Instr::LocalSet(_) => Instr::LocalSet(words.index()),
        Instr::LocalTee(_) => Instr::LocalTee(words.index()),
        Instr::GlobalGet(_) => Instr::GlobalGet(words.index()),
        Instr::GlobalSet(_) => Instr::GlobalSet(words.index()),
        Instr::Load {
            result,
            bytes,
            signed,
            ..
        } => {
            let align = words.index();
            let offset = words.index();
            Instr::Load {
                result,
                bytes,
                signed,
                align,
                offset,
            }
        }
        Instr::Store { value, bytes, .. } => {
            let align = words.index();
            let offset = words.index();
            Instr::Store {
                value,
                bytes,
                align,
                offset,
            }
        }
        Instr::Const { vtype, .. } => Instr::Const {
            vtype,
            value: words.constant(vtype),
        },
        other => other,
    })
}
