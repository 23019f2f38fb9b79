//! `mv`: a host for live updates of WebAssembly servers.
#![tactic(auto)]

mod disk_files;
#[cfg(test)]
mod fixtures;
#[cfg(test)]
mod gates_tests;
#[cfg(test)]
mod log_texts;
#[cfg(test)]
mod modules_tests;
#[cfg(test)]
mod objects_tests;
#[cfg(test)]
mod poll_tests;
#[cfg(test)]
mod rows_tests;
#[cfg(test)]
mod server_tests;
#[cfg(test)]
mod tests;
#[cfg(test)]
mod valid_tests;
mod writer_sink;

use disk_files::DiskFiles;
use mv_commands::{ExitStatus, program};
use mv_kernnet::{NetConsole, NetKernel};
use mv_outside::FreeGate;
use mv_words::places;
use std::alloc::Global;
use std::process::ExitCode;
use std::rt::Env;
use std::{env, io};
use writer_sink::WriterSink;

fn main(rt: HostRuntime) -> ExitCode {
    let alloc = rt.alloc();
    let Ok(words) = words_of(&rt, alloc) else {
        return ExitCode::from(ExitStatus::NoMemory.code());
    };
    let Ok(addresses) = places(alloc, words.as_slice()) else {
        return ExitCode::from(ExitStatus::NoMemory.code());
    };
    let mut out = WriterSink::new(rt.stdout());
    let outcome = program(
        &rt,
        alloc,
        words.as_slice(),
        NetKernel::new(
            alloc,
            &rt,
            addresses.listen,
            rt.stdin(),
            rt.stdout(),
            rt.stderr(),
        ),
        NetConsole::new(alloc, &rt, addresses.console),
        DiskFiles::new(&rt),
        &FreeGate::new(),
        &mut out,
    );
    ExitCode::from(outcome.status.code())
}

/// The words behind the program's name. Where one isn't UTF-8 there are none, so they are refused.
fn words_of<R: Env + AllocGlobal>(rt: &R, alloc: Global) -> io::Result<Vec<String>> {
    match env::args(rt) {
        Ok(args) => Ok(args.skip(1).collect(alloc)?),
        Err(error) => match error.kind() {
            io::ErrorKind::InvalidData => Ok(Vec::new(alloc)),
            _ => Err(error),
        },
    }
}
