//! The program: the words, carried out.
ghost use Rattle.std.specs.Prelude.{◌≡◌, List, ℕ, map, string_bytes};
ghost use Rattle.mv_words.specs.Commands.{Says};
ghost use Rattle.mv_commands.specs.Causes.{DidTheLog, HasCause, HasStatus, IsAny, IsExact, IsFeasible, IsLegal, IsOnOneThread, KeepsFiles, seen_of};
ghost use Rattle.mv_commands.specs.Lines.{Shows};

use crate::ending::Ending;
use crate::running::{Came, did, did_any, is_service, not_run};
use crate::showing::show;
use mv_calls::Or;
use mv_outside::{Console, Files, Gate, Kernel, Sink};
use mv_rehearse::Outcome;
use mv_words::{Command, read_words};
use std::alloc::Global;
use std::sync::Wait;
use std::thread::Threads;

/// Carries out the words of a command line, the command word first.
///
/// The headline, as far as it is built: the calls done by the kernel are exactly the log's, and the log is legal, so cut at
/// its changes of leader it is runs of the leading version, and each discarded update shows its cause: for every schedule, and
/// for two running threads in every interleaving. A load's log is that of a kernel of its own, and the one that was handed in does
/// nothing then. The status has its cause by the table of statuses, and what is printed is its line.
///
/// Only `serve` starts a thread, waits, and calls the gate.
pub fn program<
    R: Threads + Wait + Sync,
    K: Kernel + Send,
    C: Console + Send,
    F: Files + Send,
    S: Sink,
    G: Gate + Sync,
>(
    rt: &R,
    alloc: Global,
    words: &[String],
    kernel: K,
    console: C,
    files: F,
    gate: &G,
    out: &mut S,
) -> Outcome<K, C, F>
    ensures done { DidTheLog (map string_bytes words.now) (K.done kernel) (K.done result.kernel) result.log }
    ensures legal { IsLegal result.log }
    ensures files { KeepsFiles (map string_bytes words.now) (F.content files) (F.content result.files) }
    ensures status { HasStatus IsAny (map string_bytes words.now)
        (seen_of K.done K.faults C.coming C.said C.faults F.content F.faults kernel console files)
        (seen_of K.done K.faults C.coming C.said C.faults F.content F.faults result.kernel result.console result.files)
        result.log (S.written out.old, S.written out.new) (S.faults out.old, S.faults out.new) result.status }
    ensures exact { IsExact IsAny (map string_bytes words.now)
        (seen_of K.done K.faults C.coming C.said C.faults F.content F.faults kernel console files)
        (seen_of K.done K.faults C.coming C.said C.faults F.content F.faults result.kernel result.console result.files)
        result.log (S.faults out.old, S.faults out.new) result.status }
{
    served(rt, alloc, words, kernel, console, files, gate, out)
}

/// Carries out the words of a command that starts no thread; `serve` is none of them here. It takes no `Wait`, and returns on any
/// words and any files.
pub fn carry_out<K: Kernel, C: Console, F: Files, S: Sink>(
    alloc: Global,
    words: &[String],
    kernel: K,
    console: C,
    files: F,
    out: &mut S,
) -> Outcome<K, C, F>
    ensures done { DidTheLog (map string_bytes words.now) (K.done kernel) (K.done result.kernel) result.log }
    ensures legal { IsLegal result.log }
    ensures files { KeepsFiles (map string_bytes words.now) (F.content files) (F.content result.files) }
    ensures status { HasStatus IsOnOneThread (map string_bytes words.now)
        (seen_of K.done K.faults C.coming C.said C.faults F.content F.faults kernel console files)
        (seen_of K.done K.faults C.coming C.said C.faults F.content F.faults result.kernel result.console result.files)
        result.log (S.written out.old, S.written out.new) (S.faults out.old, S.faults out.new) result.status }
    ensures exact { IsExact IsOnOneThread (map string_bytes words.now)
        (seen_of K.done K.faults C.coming C.said C.faults F.content F.faults kernel console files)
        (seen_of K.done K.faults C.coming C.said C.faults F.content F.faults result.kernel result.console result.files)
        result.log (S.faults out.old, S.faults out.new) result.status }
{
    shown(alloc, words, kernel, console, files, out)
}

/// The same, but for what follows of the cause.
fn shown<K: Kernel, C: Console, F: Files, S: Sink>(
    alloc: Global,
    words: &[String],
    kernel: K,
    console: C,
    files: F,
    out: &mut S,
) -> Outcome<K, C, F>
    ensures { HasStatus IsOnOneThread (map string_bytes words.now)
        (seen_of K.done K.faults C.coming C.said C.faults F.content F.faults kernel console files)
        (seen_of K.done K.faults C.coming C.said C.faults F.content F.faults result.kernel result.console result.files)
        result.log (S.written out.old, S.written out.new) (S.faults out.old, S.faults out.new) result.status }
{
    let came = came_of(alloc, words, kernel, console, files);
    finish(alloc, came, out)
}

/// What the words come to, before the line is printed.
fn came_of<K: Kernel, C: Console, F: Files>(
    alloc: Global,
    words: &[String],
    kernel: K,
    console: C,
    files: F,
) -> Came<K, C, F>
    ensures { HasCause IsOnOneThread (map string_bytes words.now)
        (seen_of K.done K.faults C.coming C.said C.faults F.content F.faults kernel console files)
        (seen_of K.done K.faults C.coming C.said C.faults F.content F.faults result.kernel result.console result.files)
        result.log result.ending }
{
    match read_words(alloc, words) {
        Ok(command) => did_on_one(alloc, command, kernel, console, files),
        Err(Or::Fault(_)) => not_run(alloc, Ending::BadWords, kernel, console, files),
        Err(Or::OutOfMemory) => not_run(alloc, Ending::NoMemory, kernel, console, files),
    }
}

/// What a command that was read comes to. One that starts threads is none here.
fn did_on_one<K: Kernel, C: Console, F: Files>(
    alloc: Global,
    command: Command,
    kernel: K,
    console: C,
    files: F,
) -> Came<K, C, F>
    requires { IsFeasible command }
    ensures { (words : List (List ℕ)) → Says words command → HasCause IsOnOneThread words
        (seen_of K.done K.faults C.coming C.said C.faults F.content F.faults kernel console files)
        (seen_of K.done K.faults C.coming C.said C.faults F.content F.faults result.kernel result.console result.files)
        result.log result.ending }
{
    if is_service(&command) {
        return not_run(alloc, Ending::BadWords, kernel, console, files);
    }
    did(alloc, command, kernel, console, files)
}

/// The same as `shown`, with all commands.
fn served<
    R: Threads + Wait + Sync,
    K: Kernel + Send,
    C: Console + Send,
    F: Files + Send,
    S: Sink,
    G: Gate + Sync,
>(
    rt: &R,
    alloc: Global,
    words: &[String],
    kernel: K,
    console: C,
    files: F,
    gate: &G,
    out: &mut S,
) -> Outcome<K, C, F>
    ensures { HasStatus IsAny (map string_bytes words.now)
        (seen_of K.done K.faults C.coming C.said C.faults F.content F.faults kernel console files)
        (seen_of K.done K.faults C.coming C.said C.faults F.content F.faults result.kernel result.console result.files)
        result.log (S.written out.old, S.written out.new) (S.faults out.old, S.faults out.new) result.status }
{
    let came = any_of(rt, alloc, words, kernel, console, files, gate);
    finish(alloc, came, out)
}

/// What the words come to, before the line is printed, with all commands.
fn any_of<
    R: Threads + Wait + Sync,
    K: Kernel + Send,
    C: Console + Send,
    F: Files + Send,
    G: Gate + Sync,
>(
    rt: &R,
    alloc: Global,
    words: &[String],
    kernel: K,
    console: C,
    files: F,
    gate: &G,
) -> Came<K, C, F>
    ensures { HasCause IsAny (map string_bytes words.now)
        (seen_of K.done K.faults C.coming C.said C.faults F.content F.faults kernel console files)
        (seen_of K.done K.faults C.coming C.said C.faults F.content F.faults result.kernel result.console result.files)
        result.log result.ending }
{
    match read_words(alloc, words) {
        Ok(command) => did_any(rt, alloc, command, kernel, console, files, gate),
        Err(Or::Fault(_)) => not_run(alloc, Ending::BadWords, kernel, console, files),
        Err(Or::OutOfMemory) => not_run(alloc, Ending::NoMemory, kernel, console, files),
    }
}

/// Prints the line of what came, and gives the status.
fn finish<K: Kernel, C: Console, F: Files, S: Sink>(
    alloc: Global,
    came: Came<K, C, F>,
    out: &mut S,
) -> Outcome<K, C, F>
    ensures same { (result.kernel ≡ came.kernel) × (result.console ≡ came.console) × (result.files ≡ came.files) × (result.log ≡ came.log) }
    ensures shows { Shows came.ending (S.written out.old, S.written out.new) (S.faults out.old, S.faults out.new) result.status }
{
    let status = show(alloc, &came.ending, out);
    Outcome {
        status,
        kernel: came.kernel,
        console: came.console,
        files: came.files,
        log: came.log,
    }
}
