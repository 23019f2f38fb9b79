//! Texts that are assembled.
ghost use Rattle.std.specs.Prelude.{◌≡◌, ◌≤◌};
ghost use Rattle.mv_words.specs.declared.command.Command.TheVariants as ask;
ghost use Rattle.mv_commands.specs.Causes.{CauseOf, seen_of};
ghost use Rattle.mv_commands.specs.Loading.{IsMade, IsMadeOf};

use crate::ending::{Ending, Finding};
use crate::loading::FILE_LIMIT;
use crate::running::{Came, not_run};
use mv_calls::{Bytes, Or};
use mv_outside::{Console, Files, Found, Kernel};
use mv_syntax::{BornFault, Module};
use mv_text::assemble;
use mv_validator::validate;
use mv_writer::write_module;
use std::alloc::Global;

/// What the file of an assembler text is found to be.
#[derive(Drop)]
pub enum Made {
    /// It is missing, or reading it failed.
    NoFile,
    /// There was no memory for it.
    NoMemory,
    /// It isn't the text of a valid module.
    Refused(Finding),
    /// It is the text of a valid module, whose file this is.
    Module(Vec<u8>),
}

/// Reads and assembles the text of this path.
fn text_at<F: Files>(alloc: Global, path: &Bytes, files: &mut F) -> Made
    ensures made { IsMade (F.content files.old) path.now (F.faults files.old) (F.faults files.new) result }
    ensures same { F.content files.new ≡ F.content files.old }
    ensures later { F.faults files.old ≤ F.faults files.new }
{
    match files.read(alloc, path.slice(), FILE_LIMIT) {
        Found::Bytes(text) => module_of(alloc, text.slice()),
        Found::Missing | Found::Failed => Made::NoFile,
        Found::Memory => Made::NoMemory,
    }
}

/// Assembles a text, and validates and writes its module.
fn module_of(alloc: Global, text: &[u8]) -> Made
    ensures { IsMadeOf text.now result }
{
    match assemble(alloc, text) {
        Ok(module) => match validate(alloc, module) {
            Ok(valid) => match write_module(alloc, valid.module()) {
                Ok(file) => Made::Module(file),
                Err(_) => Made::NoMemory,
            },
            Err(Or::Fault(fault)) => Made::Refused(Finding::Refused(BornFault::Valid(fault))),
            Err(Or::OutOfMemory) => Made::NoMemory,
        },
        Err(Or::Fault(fault)) => Made::Refused(Finding::BadText(fault)),
        Err(Or::OutOfMemory) => Made::NoMemory,
    }
}

/// `assemble TEXT OUT`: writes the module of a text to a file.
pub fn assemble_asked<K: Kernel, C: Console, F: Files>(
    alloc: Global,
    text: Bytes,
    to: Bytes,
    kernel: K,
    console: C,
    mut files: F,
) -> Came<K, C, F>
    ensures { CauseOf (ask.Assemble text to) (seen_of K.done K.faults C.coming C.said C.faults F.content F.faults kernel console files) (seen_of K.done K.faults C.coming C.said C.faults F.content F.faults result.kernel result.console result.files) result.log result.ending }
{
    let file = match text_at(alloc, &text, &mut files) {
        Made::NoFile => {
            return not_run(alloc, Ending::NoFile { path: text }, kernel, console, files);
        }
        Made::NoMemory => return not_run(alloc, Ending::NoMemory, kernel, console, files),
        Made::Refused(finding) => {
            let ending = Ending::Found {
                path: text,
                finding,
            };
            return not_run(alloc, ending, kernel, console, files);
        }
        Made::Module(file) => file,
    };
    match files.write(alloc, to.slice(), file.as_slice()) {
        Ok(()) => {
            let bytes = file.len() as u64;
            not_run(alloc, Ending::Assembled { bytes }, kernel, console, files)
        }
        Err(Or::Fault(_)) => {
            not_run(
                alloc,
                Ending::NotWritten { path: to },
                kernel,
                console,
                files,
            )
        }
        Err(Or::OutOfMemory) => not_run(alloc, Ending::NoMemory, kernel, console, files),
    }
}
