//! The files of a load.
ghost use Rattle.std.specs.Prelude.{◌≡◌, IfOk};
ghost use Rattle.mv_load.specs.Files.{at, guest_file as file_of_guest, load_files as files_of_load};

use crate::guests::{Demo, guest_text};
use mv_calls::{Bytes, Or, OutOfMemory};
use mv_outside::{FileAt, MemFiles};
use mv_text::assemble;
use mv_writer::write_module;
use std::alloc::Global;

/// The rules from the old version's calls to the new one's.
const FORWARD: &str = "\
mvrules 1
rule
write $f \"OK\\n\" -> all
to
write $f \"+OK\\n\" -> all
end
";

/// The rules back.
const REVERSE: &str = "\
mvrules 1
rule
write $f \"+OK\\n\" -> all
to
write $f \"OK\\n\" -> all
end
";

/// The file of a guest's module, in its shortest spelling.
#[tactic(auto, unfolding(crate::specs::Files::guest_file))]
pub fn guest_file(alloc: Global, which: Demo) -> Result<Vec<u8>, OutOfMemory>
    ensures file { IfOk result (λ file. file.items ≡ file_of_guest which) }
{
    match assemble(alloc, guest_text(which)) {
        Ok(module) => write_module(alloc, &module),
        Err(Or::Fault(_)) => Ok(Vec::new(alloc)),
        Err(Or::OutOfMemory) => Err(OutOfMemory),
    }
}

/// A file of this path.
fn file_at(alloc: Global, path: &str, bytes: Vec<u8>) -> Result<FileAt, OutOfMemory>
    ensures { IfOk result (λ file. file ≡ at path.now bytes.items) }
{
    Ok(FileAt {
        path: Bytes::from_slice(alloc, path.as_bytes())?,
        bytes: Bytes::from_vec(bytes),
    })
}

/// A copy of a text.
fn copy_of(alloc: Global, text: &str) -> Result<Vec<u8>, OutOfMemory>
    ensures { IfOk result (λ copy. copy.items ≡ text.now) }
{
    Ok(Bytes::from_slice(alloc, text.as_bytes())?.into_vec())
}

/// The files of a load: `old`, `new` and `bang`, the modules of three guests, and `fwd` and `rev`, the rules from `OK` to `+OK`
/// and back.
pub fn load_files(alloc: Global) -> Result<MemFiles, OutOfMemory>
    ensures files { IfOk result (λ files. files ≡ files_of_load) }
{
    let mut files = Vec::with_capacity(alloc, 5)?;
    files.push(file_at(alloc, "old", guest_file(alloc, Demo::Old)?)?)?;
    files.push(file_at(alloc, "new", guest_file(alloc, Demo::New)?)?)?;
    files.push(file_at(alloc, "bang", guest_file(alloc, Demo::Bang)?)?)?;
    files.push(file_at(alloc, "fwd", copy_of(alloc, FORWARD)?)?)?;
    files.push(file_at(alloc, "rev", copy_of(alloc, REVERSE)?)?)?;
    Ok(MemFiles::new(files, Vec::new(alloc), Vec::new(alloc)))
}
