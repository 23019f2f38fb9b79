//! What the kernel plays and the operator says in a load, and the letters of its schedule.
ghost use Rattle.std.specs.Prelude.{◌≡◌, ◌≤◌, ◌*◌, ◌+◌, ◌%◌, ◌++◌, ◌∷◌, [], IfOk, OnOk};
ghost use Rattle.mv_load.specs.Connections.{connection, drawn, letters, load_script as script_of};
ghost use Rattle.mv_load.specs.Operator.{behind_looks, load_console};
ghost use Rattle.mv_load.specs.Schedule.{load_beats as beats_of};

use mv_calls::{Bytes, OutOfMemory, Texts};
use mv_kernmem::{Conn, Conns, Numbers, Script};
use mv_outside::MemConsole;
use std::alloc::Global;

/// The most connections of a load.
pub const MOST_CONNECTIONS: u32 = 10_000;

/// The number that is drawn behind this one.
fn draw(last: u32) -> u32
    requires small { last ≤ 65536 }
    ensures next { result ≡ (75 * last + 74) % 65537 }
    ensures small { result ≤ 65536 }
{
    (75 * last + 74) % 65_537
}

/// As many letters `a` as a drawn number says.
fn piece_by(alloc: Global, drawn: u32) -> Result<Bytes, OutOfMemory>
    ensures { IfOk result (λ bytes. bytes ≡ letters drawn) }
{
    let mut bytes = Vec::new(alloc);
    bytes.resize(1 + (drawn % 64) as usize, b'a')?;
    Ok(Bytes::from_vec(bytes))
}

/// A piece for each of four drawn numbers.
fn pieces_by(
    alloc: Global,
    first: u32,
    second: u32,
    third: u32,
    fourth: u32,
) -> Result<Texts, OutOfMemory>
    ensures { IfOk result (λ pieces. pieces ≡ letters first ∷ letters second ∷ letters third ∷ letters fourth ∷ []) }
{
    let mut pieces = Vec::with_capacity(alloc, 4)?;
    pieces.push(piece_by(alloc, first)?)?;
    pieces.push(piece_by(alloc, second)?)?;
    pieces.push(piece_by(alloc, third)?)?;
    pieces.push(piece_by(alloc, fourth)?)?;
    Ok(Texts::from_vec(pieces))
}

/// The connection with this number, from 0, and the last number that was drawn for it; `last` is the one drawn before.
fn connection_by(alloc: Global, number: u32, last: u32) -> Result<(Conn, u32), OutOfMemory>
    requires small { last ≤ 65536 }
    requires last { last ≡ drawn (4 * number) }
    ensures conn { IfOk result (λ both. both.0 ≡ connection number) }
    ensures last { IfOk result (λ both. both.1 ≡ drawn (4 * (number + 1))) }
    ensures small { IfOk result (λ both. both.1 ≤ 65536) }
{
    let first = draw(last);
    let second = draw(first);
    let third = draw(second);
    let fourth = draw(third);
    let pieces = pieces_by(alloc, first, second, third, fourth)?;
    Ok((Conn { pieces, ends: true }, fourth))
}

/// What the kernel plays in a load of `n` connections.
pub fn load_script(alloc: Global, n: u32) -> Result<Script, OutOfMemory>
    ensures script { IfOk result (λ script. script ≡ script_of n) }
{
    let mut conns = Vec::new(alloc);
    let mut last = 1;
    for number in 0..n {
        let (conn, next) = connection_by(alloc, number, last)?;
        conns.push(conn)?;
        last = next;
    }
    Ok(Script {
        conns: Conns::from_vec(conns),
        clock: Numbers::from_vec(Vec::new(alloc)),
        random: Bytes::from_vec(Vec::new(alloc)),
        fail: Numbers::from_vec(Vec::new(alloc)),
    })
}

/// Adds a line behind so many looks at which nothing has come.
fn add_line(
    alloc: Global,
    lines: &mut Vec<Option<Bytes>>,
    looks: usize,
    line: &[u8],
) -> Result<(), OutOfMemory>
    ensures { OnOk result (lines.new.items ≡ lines.old.items ++ behind_looks looks line.now) }
{
    for _ in 0..looks {
        lines.push(None)?;
    }
    lines.push(Some(Bytes::from_slice(alloc, line)?))?;
    Ok(())
}

/// What the operator says in a load.
pub fn load_lines(alloc: Global) -> Result<MemConsole, OutOfMemory>
    ensures { IfOk result (λ console. console.state ≡ load_console) }
{
    let mut lines = Vec::new(alloc);
    add_line(alloc, &mut lines, 0, b"update new fwd rev")?;
    add_line(alloc, &mut lines, 5, b"promote")?;
    add_line(alloc, &mut lines, 5, b"finish")?;
    Ok(MemConsole::new(alloc, lines, Vec::new(alloc), Vec::new(alloc)))
}

/// The letters of the schedule of a load of `n` connections.
pub fn load_beats(alloc: Global, n: u32) -> Result<Vec<u8>, OutOfMemory>
    ensures letters { IfOk result (λ letters. letters.items ≡ beats_of n) }
{
    let mut letters = Vec::new(alloc);
    for _ in 0..24 * n as u64 + 200 {
        letters.extend_from_slice(b"LCFFFJ")?;
    }
    Ok(letters)
}
