//! Sections: an id, a size, and contents of that size.
ghost use Rattle.std.specs.Prelude.{◌≡◌, ◌∷◌, ◌++◌, map, OnOk, IfOk};
ghost use Rattle.mv_writer.specs.Written.{short_u32, written_section, written_list, written_one, written_table, written_limits};

use crate::numbers::{push_number, push_sized};
use crate::types::{push_limits, push_table};
use crate::vectors::{Write, push_vector};
use mv_calls::OutOfMemory;
use mv_syntax::{Func, Limits};
use std::alloc::Global;

/// Appends a section with these contents.
fn push_section(out: &mut Vec<u8>, id: u8, contents: &[u8]) -> Result<(), OutOfMemory>
    ensures { OnOk result (out.new.items ≡ out.old.items ++ written_section id contents.now) }
{
    out.push(id)?;
    push_sized(out, contents)
}

/// Appends a section of these items, or nothing where there are none.
pub fn push_list<T: Write>(
    alloc: Global,
    out: &mut Vec<u8>,
    id: u8,
    items: &[T],
) -> Result<(), OutOfMemory>
    ensures { OnOk result (out.new.items ≡ out.old.items ++ written_list id T.written items.now) }
{
    match items {
        [] => Ok(()),
        [_, ..] => {
            let mut contents = Vec::new(alloc);
            push_vector(alloc, &mut contents, items)?;
            push_section(out, id, &contents)
        }
    }
}

/// The types of the functions, as indices.
fn types_of(alloc: Global, funcs: &[Func]) -> Result<Vec<u32>, OutOfMemory>
    ensures { IfOk result (λ v. v.items ≡ map (λ f. f.ftype) funcs.now) }
{
    let mut types = Vec::new(alloc);
    for func in funcs {
        types.push(func.ftype)?;
    }
    Ok(types)
}

/// Appends the section that declares the functions, or nothing where there are none.
pub fn push_declarations(
    alloc: Global,
    out: &mut Vec<u8>,
    funcs: &[Func],
) -> Result<(), OutOfMemory>
    ensures { OnOk result (out.new.items ≡ out.old.items ++ written_list 3 short_u32 (map (λ f. f.ftype) funcs.now)) }
{
    let types = types_of(alloc, funcs)?;
    push_list(alloc, out, 3, &types)
}

/// Appends the section of the table, or nothing where there is none.
pub fn push_table_section(
    alloc: Global,
    out: &mut Vec<u8>,
    table: Option<Limits>,
) -> Result<(), OutOfMemory>
    ensures { OnOk result (out.new.items ≡ out.old.items ++ written_one 4 (λ t. 1 ∷ written_table t) table) }
{
    match table {
        None => Ok(()),
        Some(limits) => {
            let mut contents = Vec::new(alloc);
            contents.push(1)?;
            push_table(&mut contents, limits)?;
            push_section(out, 4, &contents)
        }
    }
}

/// Appends the section of the memory, or nothing where there is none.
pub fn push_memory_section(
    alloc: Global,
    out: &mut Vec<u8>,
    memory: Option<Limits>,
) -> Result<(), OutOfMemory>
    ensures { OnOk result (out.new.items ≡ out.old.items ++ written_one 5 (λ m. 1 ∷ written_limits m) memory) }
{
    match memory {
        None => Ok(()),
        Some(limits) => {
            let mut contents = Vec::new(alloc);
            contents.push(1)?;
            push_limits(&mut contents, limits)?;
            push_section(out, 5, &contents)
        }
    }
}

/// Appends the section of the start function, or nothing where there is none.
pub fn push_start_section(
    alloc: Global,
    out: &mut Vec<u8>,
    start: Option<u32>,
) -> Result<(), OutOfMemory>
    ensures { OnOk result (out.new.items ≡ out.old.items ++ written_one 8 short_u32 start) }
{
    match start {
        None => Ok(()),
        Some(index) => {
            let mut contents = Vec::new(alloc);
            push_number(&mut contents, u64::from(index))?;
            push_section(out, 8, &contents)
        }
    }
}
