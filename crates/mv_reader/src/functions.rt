//! Functions: their locals and their bodies.
ghost use Rattle.std.specs.Prelude.{◌≡◌, ◌≤◌, ◌-◌, [], length};
ghost use Rattle.mv_syntax.specs.Forms.{each_of};
ghost use Rattle.mv_syntax.specs.Parts.{run, runs, body, func};
ghost use Rattle.mv_syntax.specs.Reading.{Reads};

use crate::bodies::code_at;
use crate::cursor::{Cursor, fault};
use crate::numbers::u32_at;
use crate::types::val_type_at;
use mv_calls::Or;
use mv_syntax::{Func, Locals, ReadFault, ReadKind};
use std::alloc::Global;

/// The most locals that a function declares.
const MOST_LOCALS: usize = 10_000;

/// The locals of a function, in so many runs.
pub fn locals_at(alloc: Global, count: u32, at: &mut Cursor<'_>) -> Result<Locals, Or<ReadFault>>
    ensures { Reads (λ v. v) result at.new ((runs count []).reads at.old) }
{
    let mut locals = Locals::new(alloc);
    for _ in 0..count {
        run_at(&mut locals, at)?;
    }
    Ok(locals)
}

/// One run of locals, behind those before it.
#[tactic(auto, unfolding(mv_syntax::specs::Parts::run))]
fn run_at(locals: &mut Locals, at: &mut Cursor<'_>) -> Result<(), Or<ReadFault>>
    ensures { Reads (λ _. locals.new) result at.new ((run locals.old).reads at.old) }
{
    let start = at.place();
    let count = u32_at(at)?;
    if count as usize > MOST_LOCALS.saturating_sub(locals.len()) {
        return fault(start, ReadKind::Limit);
    }
    let vtype = val_type_at(at)?;
    locals.push_run(count as usize, vtype)?;
    Ok(())
}

#[tactic(auto, unfolding(mv_syntax::specs::Parts::body))]
fn body_at(alloc: Global, ftype: u32, at: &mut Cursor<'_>) -> Result<Func, Or<ReadFault>>
    ensures { Reads (λ f. f) result at.new ((body ftype).reads at.old) }
{
    let count = u32_at(at)?;
    let locals = locals_at(alloc, count, at)?;
    let code = code_at(alloc, at)?;
    Ok(Func {
        ftype,
        locals,
        code,
    })
}

/// A function of this type, whose body is read as far as its section goes.
#[tactic(auto, unfolding(mv_syntax::specs::Parts::func))]
fn func_at(alloc: Global, ftype: u32, at: &mut Cursor<'_>) -> Result<Func, Or<ReadFault>>
    ensures { Reads (λ f. f) result at.new ((func ftype).reads at.old) }
{
    let size = u32_at(at)?;
    let lacks = at.lacks(size);
    let mut inside = at.clip(size);
    let func = body_at(alloc, ftype, &mut inside)?;
    inside.finish()?;
    if lacks {
        return at.run_out();
    }
    Ok(func)
}

/// The functions of these types.
pub fn funcs_at(
    alloc: Global,
    declared: &[u32],
    at: &mut Cursor<'_>,
) -> Result<Vec<Func>, Or<ReadFault>>
    ensures { Reads (λ v. v.items) result at.new ((each_of func declared.now).reads at.old) }
{
    let mut items = Vec::new(alloc);
    for ftype in declared {
        let item = func_at(alloc, *ftype, at)?;
        items.push(item)?;
    }
    Ok(items)
}
