//! Lists of words.
ghost use Rattle.std.specs.Prelude.{◌≡◌, IfOk};
ghost use Rattle.mv_statements.specs.Forms.{many, maybe};
ghost use Rattle.mv_statements.specs.Words.{index, val_type};

use crate::words::Words;
use mv_calls::OutOfMemory;
use mv_syntax::{Indices, Locals, ValType, ValTypes};
use std::alloc::Global;

/// So many types.
pub fn val_types(
    alloc: Global,
    count: usize,
    words: &mut Words<'_>,
) -> Result<ValTypes, OutOfMemory>
    ensures { IfOk result (λ types. (types, words.new) ≡ (many val_type count).reads words.old) }
{
    let mut types = Vec::new(alloc);
    for _ in 0..count {
        types.push(words.val_type())?;
    }
    Ok(ValTypes::from_vec(types))
}

/// So many locals, by their types.
pub fn local_types(
    alloc: Global,
    count: usize,
    words: &mut Words<'_>,
) -> Result<Locals, OutOfMemory>
    ensures { IfOk result (λ locals. (locals, words.new) ≡ (many val_type count).reads words.old) }
{
    let mut locals = Locals::new(alloc);
    for _ in 0..count {
        locals.push_run(1, words.val_type())?;
    }
    Ok(locals)
}

/// So many indices.
pub fn indices(alloc: Global, count: usize, words: &mut Words<'_>) -> Result<Indices, OutOfMemory>
    ensures { IfOk result (λ list. (list, words.new) ≡ (many index count).reads words.old) }
{
    let mut list = Vec::new(alloc);
    for _ in 0..count {
        list.push(words.index())?;
    }
    Ok(Indices::from_vec(list))
}

/// A type, or none where the line has ended.
#[tactic(auto, unfolding(crate::specs::Forms::maybe))]
pub fn maybe_val_type(words: &mut Words<'_>) -> Option<ValType>
    ensures { (result, words.new) ≡ (maybe val_type).reads words.old }
{
    if words.left() == 0 {
        return None;
    }
    Some(words.val_type())
}

/// An index, or none where the line has ended.
#[tactic(auto, unfolding(crate::specs::Forms::maybe))]
pub fn maybe_index(words: &mut Words<'_>) -> Option<u32>
    ensures { (result, words.new) ≡ (maybe index).reads words.old }
{
    if words.left() == 0 {
        return None;
    }
    Some(words.index())
}
