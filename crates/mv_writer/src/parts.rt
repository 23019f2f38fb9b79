//! What the sections hold.
ghost use Rattle.std.specs.Prelude.{◌≡◌};
ghost use Rattle.mv_writer.specs.Written.{written_import, written_global, written_export, written_element, written_segment, written_body, written_func};

use crate::instructions::push_code;
use crate::numbers::{push_number, push_sized};
use crate::types::{flag, type_code};
use crate::vectors::{Write, push_vector};
use mv_calls::OutOfMemory;
use mv_syntax::{Element, Export, Global as GlobalPart, Import, Segment};
use std::alloc::Global;

impl Write for Import {
    ghost written = { written_import };

    fn write(&self, _alloc: Global, out: &mut Vec<u8>) -> Result<(), OutOfMemory> {
        push_sized(out, self.module.slice())?;
        push_sized(out, self.name.slice())?;
        out.push(0)?;
        push_number(out, u64::from(self.ftype))
    }
}

impl Write for GlobalPart {
    ghost written = { written_global };

    fn write(&self, alloc: Global, out: &mut Vec<u8>) -> Result<(), OutOfMemory> {
        out.push(type_code(self.vtype))?;
        out.push(flag(self.mutable))?;
        push_code(alloc, out, &self.init)
    }
}

impl Write for Export {
    ghost written = { written_export };

    fn write(&self, _alloc: Global, out: &mut Vec<u8>) -> Result<(), OutOfMemory> {
        push_sized(out, self.name.slice())?;
        out.push(self.kind)?;
        push_number(out, u64::from(self.index))
    }
}

impl Write for Element {
    ghost written = { written_element };

    fn write(&self, alloc: Global, out: &mut Vec<u8>) -> Result<(), OutOfMemory> {
        out.push(0)?;
        push_code(alloc, out, &self.offset)?;
        push_vector(alloc, out, self.funcs.slice())
    }
}

impl Write for Segment {
    ghost written = { written_segment };

    fn write(&self, alloc: Global, out: &mut Vec<u8>) -> Result<(), OutOfMemory> {
        out.push(0)?;
        push_code(alloc, out, &self.offset)?;
        push_sized(out, self.bytes.slice())
    }
}
