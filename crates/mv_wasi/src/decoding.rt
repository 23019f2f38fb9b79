//! What the call at which a machine stands becomes.
ghost use Rattle.std.specs.Prelude.{◌≡◌, ◌∷◌, ℕ, List, [], Some, IfOk, OnErr};
ghost use Rattle.mv_syntax.specs.declared.ops.ValType.TheVariants.{I32};
ghost use Rattle.mv_imports.specs.Functions.{params_of};
ghost use Rattle.mv_imports.specs.declared.function.HostFunction.TheVariants as Function;
ghost use Rattle.mv_wasi.specs.Decoding.{decoded, sizes_answered, texts_answered};
ghost use Rattle.mv_wasi.specs.Groups.{AsksForTexts, IsJudged, IsJudgedOnDescriptor};
ghost use Rattle.mv_wasi.specs.Machines.{argument_at, made_at, with_bytes, clean};
ghost use Rattle.mv_wasi.specs.Known.{AreKnown, IsWaitingFor, UnlessLocal};

use crate::calls::{function_of, word};
use crate::made::{ERRNO_FAULT, ERRNO_INVAL, LiveOp, Made};
use crate::polls::poll_made;
use crate::ranges::{
    TRANSFER_LIMIT, VECTOR_LIMIT, gathered, lies_within, ranges_lie_within, total_of,
};
use crate::texts::{sizes_made, texts_made};
use mv_calls::{Bytes, Call, OutOfMemory, Texts};
use mv_imports::HostFunction;
use mv_machine::Machine;
use mv_memory::Memory;
use std::alloc::Global;

/// `clock_time_get`.
fn clock_made(memory: &Memory, id: u32, out: u32) -> Made
    ensures made { result ≡ (decoded Function.ClockTimeGet id 0 out 0 [] memory.now.bytes).0 }
    ensures left { (decoded Function.ClockTimeGet id 0 out 0 [] memory.now.bytes).1 ≡ memory.now.bytes }
{
    if id > 1 {
        Made::Local(ERRNO_INVAL)
    } else if lies_within(memory, out, 8) {
        Made::Outside(Call::Clock { id })
    } else {
        Made::Local(ERRNO_FAULT)
    }
}

/// `random_get`.
fn random_made(memory: &Memory, buf: u32, len: u32) -> Made
    ensures made { result ≡ (decoded Function.RandomGet buf len 0 0 [] memory.now.bytes).0 }
    ensures left { (decoded Function.RandomGet buf len 0 0 [] memory.now.bytes).1 ≡ memory.now.bytes }
{
    if len as usize > TRANSFER_LIMIT {
        Made::Local(ERRNO_INVAL)
    } else if lies_within(memory, buf, u64::from(len)) {
        Made::Outside(Call::Random { len })
    } else {
        Made::Local(ERRNO_FAULT)
    }
}

/// `fd_fdstat_get`.
fn stat_made(memory: &Memory, fd: u32, buf: u32) -> Made
    ensures made { result ≡ (decoded Function.FdFdstatGet fd buf 0 0 [] memory.now.bytes).0 }
    ensures left { (decoded Function.FdFdstatGet fd buf 0 0 [] memory.now.bytes).1 ≡ memory.now.bytes }
{
    if lies_within(memory, buf, 24) {
        Made::Outside(Call::FdStat { fd })
    } else {
        Made::Local(ERRNO_FAULT)
    }
}

/// `sock_accept`.
fn accept_made(memory: &Memory, fd: u32, flags: u32, out: u32) -> Made
    ensures made { result ≡ (decoded Function.SockAccept fd flags out 0 [] memory.now.bytes).0 }
    ensures left { (decoded Function.SockAccept fd flags out 0 [] memory.now.bytes).1 ≡ memory.now.bytes }
{
    if lies_within(memory, out, 4) {
        Made::Outside(Call::Accept {
            fd,
            flags: (flags % 65_536) as u16,
        })
    } else {
        Made::Local(ERRNO_FAULT)
    }
}

/// `sock_shutdown`.
fn shutdown_made(memory: &Memory, fd: u32, how: u32) -> Made
    ensures made { result ≡ (decoded Function.SockShutdown fd how 0 0 [] memory.now.bytes).0 }
    ensures left { (decoded Function.SockShutdown fd how 0 0 [] memory.now.bytes).1 ≡ memory.now.bytes }
{
    let _ = memory;
    if how == 0 || how > 3 {
        Made::Local(ERRNO_INVAL)
    } else {
        Made::Outside(Call::Shutdown { fd, how: how as u8 })
    }
}

/// `fd_write`.
fn write_made(
    alloc: Global,
    memory: &Memory,
    fd: u32,
    iovs: u32,
    count: u32,
    result_at: u32,
) -> Result<Made, OutOfMemory>
    ensures made { IfOk result (λ made. made ≡ (decoded Function.FdWrite fd iovs count result_at [] memory.now.bytes).0) }
    ensures left { (decoded Function.FdWrite fd iovs count result_at [] memory.now.bytes).1 ≡ memory.now.bytes }
{
    if count > VECTOR_LIMIT {
        return Ok(Made::Local(ERRNO_INVAL));
    }
    if !ranges_lie_within(memory, iovs, count, result_at) {
        return Ok(Made::Local(ERRNO_FAULT));
    }
    let bytes = Bytes::from_vec(gathered(alloc, memory, iovs, count)?);
    Ok(Made::Outside(Call::Write { fd, bytes }))
}

/// `fd_read`.
fn read_made(memory: &Memory, fd: u32, iovs: u32, count: u32, result_at: u32) -> Made
    ensures made { result ≡ (decoded Function.FdRead fd iovs count result_at [] memory.now.bytes).0 }
    ensures left { (decoded Function.FdRead fd iovs count result_at [] memory.now.bytes).1 ≡ memory.now.bytes }
{
    if count > VECTOR_LIMIT {
        Made::Local(ERRNO_INVAL)
    } else if ranges_lie_within(memory, iovs, count, result_at) {
        Made::Outside(Call::Read {
            fd,
            cap: total_of(memory, iovs, count),
        })
    } else {
        Made::Local(ERRNO_FAULT)
    }
}

/// What the call of a function on a descriptor becomes that is judged by its arguments and by what is in memory. It writes
/// nothing.
fn decode_descriptor(
    alloc: Global,
    machine: &Machine,
    function: HostFunction,
) -> Result<Made, OutOfMemory>
    requires waits { IsWaitingFor machine.now function }
    requires judged { IsJudgedOnDescriptor function }
    ensures made { IfOk result (λ made. (texts : List (List ℕ)) → made ≡ (decoded function (argument_at machine.now.parts machine.now.config 0) (argument_at machine.now.parts machine.now.config 1) (argument_at machine.now.parts machine.now.config 2) (argument_at machine.now.parts machine.now.config 3) texts machine.now.config.store.memory.bytes).0) }
    ensures left { IfOk result (λ made. (texts : List (List ℕ)) → (decoded function (argument_at machine.now.parts machine.now.config 0) (argument_at machine.now.parts machine.now.config 1) (argument_at machine.now.parts machine.now.config 2) (argument_at machine.now.parts machine.now.config 3) texts machine.now.config.store.memory.bytes).1 ≡ machine.now.config.store.memory.bytes) }
{
    let memory = machine.memory();
    match function {
        HostFunction::FdRead => Ok(read_made(
            memory,
            word(machine, function, 0),
            word(machine, function, 1),
            word(machine, function, 2),
            word(machine, function, 3),
        )),
        HostFunction::FdWrite => write_made(
            alloc,
            memory,
            word(machine, function, 0),
            word(machine, function, 1),
            word(machine, function, 2),
            word(machine, function, 3),
        ),
        HostFunction::FdFdstatGet => Ok(stat_made(
            memory,
            word(machine, function, 0),
            word(machine, function, 1),
        )),
        HostFunction::SockAccept => Ok(accept_made(
            memory,
            word(machine, function, 0),
            word(machine, function, 1),
            word(machine, function, 2),
        )),
        HostFunction::SockShutdown => Ok(shutdown_made(
            memory,
            word(machine, function, 0),
            word(machine, function, 1),
        )),
        _ => unreachable!(),
    }
}

/// What the call of a function becomes that is judged by its arguments and by what is in memory. It writes nothing.
fn decode_judged(
    alloc: Global,
    machine: &Machine,
    function: HostFunction,
) -> Result<Made, OutOfMemory>
    requires waits { IsWaitingFor machine.now function }
    requires judged { IsJudged function }
    ensures made { IfOk result (λ made. (texts : List (List ℕ)) → made ≡ (decoded function (argument_at machine.now.parts machine.now.config 0) (argument_at machine.now.parts machine.now.config 1) (argument_at machine.now.parts machine.now.config 2) (argument_at machine.now.parts machine.now.config 3) texts machine.now.config.store.memory.bytes).0) }
    ensures left { IfOk result (λ made. (texts : List (List ℕ)) → (decoded function (argument_at machine.now.parts machine.now.config 0) (argument_at machine.now.parts machine.now.config 1) (argument_at machine.now.parts machine.now.config 2) (argument_at machine.now.parts machine.now.config 3) texts machine.now.config.store.memory.bytes).1 ≡ machine.now.config.store.memory.bytes) }
{
    let memory = machine.memory();
    match function {
        HostFunction::ClockTimeGet => Ok(clock_made(
            memory,
            word(machine, function, 0),
            word(machine, function, 2),
        )),
        HostFunction::RandomGet => Ok(random_made(
            memory,
            word(machine, function, 0),
            word(machine, function, 1),
        )),
        HostFunction::PollOneoff => poll_made(
            alloc,
            memory,
            word(machine, function, 0),
            word(machine, function, 1),
            word(machine, function, 2),
            word(machine, function, 3),
        ),
        _ => decode_descriptor(alloc, machine, function),
    }
}

/// What the call of this function becomes, which asks for no texts and so writes nothing.
fn decode_call(
    alloc: Global,
    machine: &Machine,
    function: HostFunction,
) -> Result<Made, OutOfMemory>
    requires waits { IsWaitingFor machine.now function }
    requires texts { AsksForTexts function → ⊥ }
    ensures made { IfOk result (λ made. (texts : List (List ℕ)) → made ≡ (decoded function (argument_at machine.now.parts machine.now.config 0) (argument_at machine.now.parts machine.now.config 1) (argument_at machine.now.parts machine.now.config 2) (argument_at machine.now.parts machine.now.config 3) texts machine.now.config.store.memory.bytes).0) }
    ensures left { IfOk result (λ made. (texts : List (List ℕ)) → (decoded function (argument_at machine.now.parts machine.now.config 0) (argument_at machine.now.parts machine.now.config 1) (argument_at machine.now.parts machine.now.config 2) (argument_at machine.now.parts machine.now.config 3) texts machine.now.config.store.memory.bytes).1 ≡ machine.now.config.store.memory.bytes) }
{
    match function {
        HostFunction::FdClose => Ok(Made::Outside(Call::Close {
            fd: word(machine, function, 0),
        })),
        HostFunction::SchedYield => Ok(Made::Outside(Call::Yield)),
        HostFunction::FdSeek => Ok(Made::Local(70)),
        HostFunction::FdPrestatGet => Ok(Made::Local(8)),
        HostFunction::FdPrestatDirName => Ok(Made::Local(8)),
        HostFunction::ProcExit => Ok(Made::Exit(word(machine, function, 0))),
        HostFunction::Point => Ok(Made::Point),
        HostFunction::OldPages => Ok(Made::Live(LiveOp::Pages)),
        HostFunction::OldRead => Ok(Made::Live(LiveOp::Read {
            src: word(machine, function, 0),
            dst: word(machine, function, 1),
            len: word(machine, function, 2),
        })),
        HostFunction::OldGlobal => Ok(Made::Live(LiveOp::Global {
            n: word(machine, function, 0),
        })),
        _ => decode_judged(alloc, machine, function),
    }
}

/// The answer to a call that asks how many texts there are and what they take.
fn answer_sizes(
    alloc: Global,
    machine: &mut Machine,
    function: HostFunction,
    texts: &[Bytes],
) -> Result<Made, OutOfMemory>
    requires waits { IsWaitingFor machine.old function }
    requires words { params_of function ≡ I32 ∷ I32 ∷ [] }
    ensures made { IfOk result (λ made. made ≡ (sizes_answered (argument_at machine.old.parts machine.old.config 0) (argument_at machine.old.parts machine.old.config 1) texts.now machine.old.config.store.memory.bytes).0) }
    ensures left { IfOk result (λ made. clean machine.new.config ≡ clean (with_bytes (sizes_answered (argument_at machine.old.parts machine.old.config 0) (argument_at machine.old.parts machine.old.config 1) texts.now machine.old.config.store.memory.bytes).1 machine.old.config)) }
    ensures parts { machine.new.parts ≡ machine.old.parts }
    ensures err { OnErr result (clean machine.new.config ≡ clean machine.old.config) }
{
    let count_at = word(machine, function, 0);
    let size_at = word(machine, function, 1);
    let memory = machine.memory_mut();
    sizes_made(alloc, memory, count_at, size_at, texts)
}

/// The answer to a call that asks for texts.
fn answer_texts(
    alloc: Global,
    machine: &mut Machine,
    function: HostFunction,
    texts: &[Bytes],
) -> Result<Made, OutOfMemory>
    requires waits { IsWaitingFor machine.old function }
    requires words { params_of function ≡ I32 ∷ I32 ∷ [] }
    ensures made { IfOk result (λ made. made ≡ (texts_answered (argument_at machine.old.parts machine.old.config 0) (argument_at machine.old.parts machine.old.config 1) texts.now machine.old.config.store.memory.bytes).0) }
    ensures left { IfOk result (λ made. clean machine.new.config ≡ clean (with_bytes (texts_answered (argument_at machine.old.parts machine.old.config 0) (argument_at machine.old.parts machine.old.config 1) texts.now machine.old.config.store.memory.bytes).1 machine.old.config)) }
    ensures parts { machine.new.parts ≡ machine.old.parts }
    ensures err { OnErr result (clean machine.new.config ≡ clean machine.old.config) }
{
    let list = word(machine, function, 0);
    let buf = word(machine, function, 1);
    let memory = machine.memory_mut();
    texts_made(alloc, memory, list, buf, texts)
}

/// What the call of this import becomes, at which the machine stands. `args` are the guest's arguments; its environment is
/// empty. For want of memory nothing changes, but for which pages are owned.
pub fn decode(
    alloc: Global,
    machine: &mut Machine,
    import: u32,
    args: &Texts,
) -> Result<Made, OutOfMemory>
    requires waits { machine.old.config.waiting ≡ Some import }
    requires known { AreKnown machine.old.parts }
    ensures made { IfOk result (λ made. made ≡ (made_at machine.old.parts args.now import machine.old.config).0) }
    ensures left { IfOk result (λ made. clean machine.new.config ≡ clean (with_bytes (made_at machine.old.parts args.now import machine.old.config).1 machine.old.config)) }
    ensures kept { IfOk result (λ made. UnlessLocal made (clean machine.new.config ≡ clean machine.old.config)) }
    ensures parts { machine.new.parts ≡ machine.old.parts }
    ensures err { OnErr result (clean machine.new.config ≡ clean machine.old.config) }
{
    match function_of(machine, import) {
        None => Ok(Made::Live(LiveOp::Pages)),
        Some(function) => match function {
            HostFunction::ArgsSizesGet => answer_sizes(alloc, machine, function, args.slice()),
            HostFunction::ArgsGet => answer_texts(alloc, machine, function, args.slice()),
            HostFunction::EnvironSizesGet => answer_sizes(alloc, machine, function, &[]),
            HostFunction::EnvironGet => answer_texts(alloc, machine, function, &[]),
            _ => decode_call(alloc, machine, function),
        },
    }
}
