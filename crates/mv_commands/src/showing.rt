//! The one line that a command prints, and its status.
ghost use Rattle.std.specs.Prelude.{◌≡◌, ◌++◌, codes, decimal, IfOk, IfSome, IsSome, OnOk, Some};
ghost use Rattle.mv_commands.specs.Lines.{IsFixed, IsFixedEnd, IsLine, Shows, audit_text, line_feed, end_text, figure_text, figures_text, finding_status, load_text, loaded_status, missing_text, status_of};

use crate::ending::{Ending, Finding, LoadEnding};
use crate::fault_lines::{add_number, finding_line, refusal_line};
use mv_calls::{Bytes, Or, OutOfMemory};
use mv_history::How;
use mv_load::Figures;
use mv_outside::Sink;
use mv_rehearse::{ExitStatus, status_by};
use mv_show::{log_lines, stage_name, trap_name};
use std::alloc::Global;

/// How the program is called.
const HELP: &[u8] = b"mv run OLD [ARG ..]\n\
mv rehearse OLD SCHEDULE [ARG ..] [--ring N] [--log PATH]\n\
mv serve OLD [ARG ..] [--ring N] [--log PATH]\n\
mv check MODULE\n\
mv rules FWD\n\
mv audit LOG OLD [M FWD REV ..]\n\
mv show LOG\n\
mv assemble TEXT OUT\n\
mv load N\n\
run, rehearse and serve: [--listen ADDRESS] [--console ADDRESS]\n";

/// The line of a file that is missing.
fn missing_line(alloc: Global, path: &Bytes) -> Result<Vec<u8>, OutOfMemory>
    ensures { IfOk result (λ line. line.items ≡ missing_text path.now) }
{
    let mut line = Vec::from_slice(alloc, b"mv: file ")?;
    line.extend_from_slice(path.slice())?;
    line.push(b'\n')?;
    Ok(line)
}

/// The end line of a run, where it has no number and no name in it.
fn fixed_end(how: How) -> Option<&'static [u8]>
    ensures text { IfSome result (λ text. text.now ≡ end_text how) }
    ensures fixed { IsFixedEnd how → IsSome result }
{
    match how {
        How::Ended(_) | How::Trapped(_) => None,
        How::Halted => Some(b"halted\n"),
        How::Cut => Some(b"cut\n"),
        How::KernelFault => Some(b"kernel fault\n"),
        How::LogLimit => Some(b"log limit\n"),
        How::Memory => Some(b"no memory\n"),
    }
}

/// The end line of a run, where it has a number or a name in it.
fn end_line(alloc: Global, how: How) -> Result<Vec<u8>, OutOfMemory>
    requires { IsFixedEnd how → ⊥ }
    ensures { IfOk result (λ line. line.items ≡ end_text how) }
{
    match how {
        How::Ended(code) => {
            let mut line = Vec::from_slice(alloc, b"ended ")?;
            add_number(&mut line, u64::from(code))?;
            line.push(b'\n')?;
            Ok(line)
        }
        How::Trapped(trap) => {
            let mut line = Vec::from_slice(alloc, b"trapped ")?;
            line.extend_from_slice(trap_name(trap).as_bytes())?;
            line.push(b'\n')?;
            Ok(line)
        }
        How::Halted | How::Cut | How::KernelFault | How::LogLimit | How::Memory => unreachable!(),
    }
}

/// The line of an audit that found an illegal entry.
fn illegal_line(alloc: Global, entry: u64) -> Result<Vec<u8>, OutOfMemory>
    ensures { IfOk result (λ line. line.items ≡ audit_text (Some entry)) }
{
    let mut line = Vec::from_slice(alloc, b"no ")?;
    add_number(&mut line, entry)?;
    line.push(b'\n')?;
    Ok(line)
}

/// The line of a text that was assembled.
fn bytes_line(alloc: Global, bytes: u64) -> Result<Vec<u8>, OutOfMemory>
    ensures { IfOk result (λ line. line.items ≡ codes "bytes " ++ (decimal bytes ++ line_feed)) }
{
    let mut line = Vec::from_slice(alloc, b"bytes ")?;
    add_number(&mut line, bytes)?;
    line.push(b'\n')?;
    Ok(line)
}

/// Adds a line of a name and a number.
fn add_figure(line: &mut Vec<u8>, name: &[u8], number: u64) -> Result<(), OutOfMemory>
    ensures { OnOk result (line.new.items ≡ line.old.items ++ figure_text name.now number) }
{
    line.extend_from_slice(name)?;
    line.push(b' ')?;
    add_number(line, number)?;
    line.push(b'\n')?;
    Ok(())
}

/// The lines of a log's figures, and that the log is legal.
fn figure_lines(alloc: Global, figures: Figures) -> Result<Vec<u8>, OutOfMemory>
    ensures { IfOk result (λ lines. lines.items ≡ figures_text figures) }
{
    let mut lines = Vec::new(alloc);
    add_figure(&mut lines, b"calls", figures.calls)?;
    add_figure(&mut lines, b"bytes", figures.bytes)?;
    add_figure(&mut lines, b"forks", figures.forks)?;
    add_figure(&mut lines, b"promotes", figures.promotes)?;
    lines.extend_from_slice(b"stage ")?;
    lines.extend_from_slice(stage_name(figures.stage).as_bytes())?;
    lines.extend_from_slice(b"\naudit yes\n")?;
    Ok(lines)
}

/// The lines of a load.
fn load_lines(alloc: Global, loaded: LoadEnding) -> Result<Vec<u8>, OutOfMemory>
    ensures { IfOk result (λ lines. lines.items ≡ load_text loaded) }
{
    match loaded {
        LoadEnding::Ended { figures, .. } => figure_lines(alloc, figures),
        LoadEnding::Refused(fault) => {
            let path = Bytes::from_slice(alloc, b"old")?;
            refusal_line(alloc, &path, fault)
        }
    }
}

/// The line of an ending, where it is the same each time. It is there without any memory.
fn fixed_line(ending: &Ending) -> Option<&'static [u8]>
    ensures line { IfSome result (λ text. IsLine ending.now text.now) }
    ensures fixed { IsFixed ending.now → IsSome result }
{
    match ending {
        Ending::BadWords => Some(b"mv: bad words\n"),
        Ending::NoMemory | Ending::LogNotMade(_) => Some(b"no memory\n"),
        Ending::Told => Some(HELP),
        Ending::Found {
            finding: Finding::Valid,
            ..
        } => Some(b"valid\n"),
        Ending::Audited { illegal: None } => Some(b"yes\n"),
        Ending::Ran(how) => fixed_end(*how),
        _ => None,
    }
}

/// The line of an ending, where it has to be made.
fn made_line(alloc: Global, ending: &Ending) -> Result<Vec<u8>, OutOfMemory>
    requires { IsFixed ending.now → ⊥ }
    ensures { IfOk result (λ line. IsLine ending.now line.items) }
{
    match ending {
        Ending::BadWords | Ending::NoMemory | Ending::Told | Ending::LogNotMade(_) =>
            unreachable!(),
        Ending::NoFile { path } => missing_line(alloc, path),
        Ending::Found { path, finding } => finding_line(alloc, path, *finding),
        Ending::Ran(how) => end_line(alloc, *how),
        Ending::LogFailed { path, .. } => missing_line(alloc, path),
        Ending::Audited { illegal: None } => unreachable!(),
        Ending::Audited {
            illegal: Some(entry),
        } => illegal_line(alloc, *entry),
        Ending::Shown { entries } => log_lines(alloc, entries.slice()),
        Ending::Assembled { bytes } => bytes_line(alloc, *bytes),
        Ending::NotWritten { path } => missing_line(alloc, path),
        Ending::Loaded(loaded) => load_lines(alloc, *loaded),
    }
}

/// The status of a file that was judged.
fn found_status(finding: Finding) -> ExitStatus
    ensures { result ≡ finding_status finding }
{
    match finding {
        Finding::Refused(_)
        | Finding::BadRules(_)
        | Finding::BadSchedule(_)
        | Finding::BadLog(_)
        | Finding::BadText(_) => ExitStatus::BadFile,
        Finding::Valid | Finding::Rules(_) => ExitStatus::Success,
    }
}

/// The status of a load.
fn load_status(loaded: LoadEnding) -> ExitStatus
    ensures { result ≡ loaded_status loaded }
{
    match loaded {
        LoadEnding::Ended { how, .. } => status_by(how),
        LoadEnding::Refused(_) => ExitStatus::BadFile,
    }
}

/// The status that the process exits with, where the line is printed.
fn status(ending: &Ending) -> ExitStatus
    ensures { result ≡ status_of ending.now }
{
    match ending {
        Ending::BadWords => ExitStatus::BadWords,
        Ending::NoMemory => ExitStatus::NoMemory,
        Ending::Told => ExitStatus::Success,
        Ending::NoFile { .. } => ExitStatus::FileFault,
        Ending::Found { finding, .. } => found_status(*finding),
        Ending::Ran(how) => status_by(*how),
        Ending::LogFailed { .. } => ExitStatus::FileFault,
        Ending::LogNotMade(_) => ExitStatus::NoMemory,
        Ending::Audited { illegal: None } => ExitStatus::Success,
        Ending::Audited { illegal: Some(_) } => ExitStatus::IllegalLog,
        Ending::Shown { .. } => ExitStatus::Success,
        Ending::Assembled { .. } => ExitStatus::Success,
        Ending::NotWritten { .. } => ExitStatus::FileFault,
        Ending::Loaded(loaded) => load_status(*loaded),
    }
}

/// Prints this line of an ending, and gives the status.
fn print<S: Sink>(alloc: Global, ending: &Ending, text: &[u8], out: &mut S) -> ExitStatus
    requires { IsLine ending.now text.now }
    ensures { Shows ending.now (S.written out.old, S.written out.new) (S.faults out.old, S.faults out.new) result }
{
    match out.write_all_of(alloc, text) {
        Ok(()) => status(ending),
        Err(Or::Fault(_)) => ExitStatus::PrintFault,
        Err(Or::OutOfMemory) => ExitStatus::NoMemory,
    }
}

/// Prints the line of an ending, and gives the status.
pub fn show<S: Sink>(alloc: Global, ending: &Ending, out: &mut S) -> ExitStatus
    ensures { Shows ending.now (S.written out.old, S.written out.new) (S.faults out.old, S.faults out.new) result }
{
    if let Some(text) = fixed_line(ending) {
        return print(alloc, ending, text, out);
    }
    let Ok(text) = made_line(alloc, ending) else {
        return ExitStatus::NoMemory;
    };
    print(alloc, ending, text.as_slice(), out)
}
