//! Modules.
ghost use Rattle.std.specs.Prelude.{◌≡◌, ℕ, List, ◌++◌, ◌≤◌, ◌^◌, length, OnOk, IfOk};
ghost use Rattle.mv_syntax.specs.Modules.{HasSpelling, IsSpelled, Spells};
ghost use Rattle.mv_writer.specs.Written.{written};

use crate::sections::{
    push_declarations, push_list, push_memory_section, push_start_section, push_table_section,
};
use mv_calls::OutOfMemory;
use mv_syntax::Module;
use std::alloc::Global;

const PREAMBLE: [u8; 8] = [0x00, 0x61, 0x73, 0x6d, 0x01, 0x00, 0x00, 0x00];

/// The bytes of a module, section by section.
#[tactic(auto, unfolding(crate::specs::Written::written))]
fn module_bytes(alloc: Global, module: &Module) -> Result<Vec<u8>, OutOfMemory>
    ensures bytes { IfOk result (λ v. v.items ≡ written module.now) }
    ensures has_spelling { IfOk result (λ _. HasSpelling module.now) }
{
    let mut out = Vec::from_slice(alloc, &PREAMBLE)?;
    push_list(alloc, &mut out, 1, module.types.slice())?;
    push_list(alloc, &mut out, 2, module.imports.slice())?;
    push_declarations(alloc, &mut out, module.funcs.slice())?;
    push_table_section(alloc, &mut out, module.table)?;
    push_memory_section(alloc, &mut out, module.memory)?;
    push_list(alloc, &mut out, 6, module.globals.slice())?;
    push_list(alloc, &mut out, 7, module.exports.slice())?;
    push_start_section(alloc, &mut out, module.start)?;
    push_list(alloc, &mut out, 9, module.elements.slice())?;
    push_list(alloc, &mut out, 10, module.funcs.slice())?;
    push_list(alloc, &mut out, 11, module.segments.slice())?;
    Ok(out)
}

/// The bytes of a module in its shortest spelling (WebAssembly Core 1.0, section 5): each number in as few bytes
/// as hold it, neighbouring locals of one type in one run, and no section without contents and none of a custom
/// kind. Of the bytes that spell the module none are fewer. Where they are at most 16 MiB they are read back as
/// the same module.
pub fn write_module(alloc: Global, module: &Module) -> Result<Vec<u8>, OutOfMemory>
    ensures bytes { IfOk result (λ v. v.items ≡ written module.now) }
    ensures spelled { IfOk result (λ v. length v.items ≤ 2 ^ 24 → Spells v.items module.now) }
    ensures shortest { IfOk result (λ v. (bytes : List ℕ) → IsSpelled bytes module.now → length v.items ≤ length bytes) }
{
    module_bytes(alloc, module)
}
