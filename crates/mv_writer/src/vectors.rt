//! Vectors: a count, and as many of one form.
ghost use Rattle.std.specs.Prelude.{◌≡◌, ℕ, List, ◌++◌, flat_map, OnOk};
ghost use Rattle.mv_writer.specs.Written.{written_vector, short_u32, written_type};

use crate::numbers::push_number;
use crate::types::type_code;
use mv_calls::OutOfMemory;
use mv_syntax::ValType;
use std::alloc::Global;

/// What has a shortest spelling.
pub trait Write {
    ghost written: { Self → List ℕ };

    /// Appends the shortest spelling.
    fn write(&self, alloc: Global, out: &mut Vec<u8>) -> Result<(), OutOfMemory>
        ensures { OnOk result (out.new.items ≡ out.old.items ++ written self.now) };
}

/// Appends each of these items.
pub fn push_each<T: Write>(alloc: Global, out: &mut Vec<u8>, items: &[T]) -> Result<(), OutOfMemory>
    ensures { OnOk result (out.new.items ≡ out.old.items ++ flat_map T.written items.now) }
{
    for item in items {
        item.write(alloc, out)?;
    }
    Ok(())
}

/// Appends how many items there are, and each of them.
pub fn push_vector<T: Write>(
    alloc: Global,
    out: &mut Vec<u8>,
    items: &[T],
) -> Result<(), OutOfMemory>
    ensures { OnOk result (out.new.items ≡ out.old.items ++ written_vector T.written items.now) }
{
    push_number(out, items.len() as u64)?;
    push_each(alloc, out, items)
}

impl Write for u32 {
    ghost written = { short_u32 };

    fn write(&self, _alloc: Global, out: &mut Vec<u8>) -> Result<(), OutOfMemory> {
        push_number(out, u64::from(*self))
    }
}

impl Write for ValType {
    ghost written = { written_type };

    fn write(&self, _alloc: Global, out: &mut Vec<u8>) -> Result<(), OutOfMemory> {
        out.push(type_code(*self))?;
        Ok(())
    }
}
