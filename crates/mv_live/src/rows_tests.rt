//! Rehearsals of the demonstration guests (docs/FORMATS.md, "Demonstration guests"), over objects in memory: each log, entry by entry.
ghost use Rattle.std.specs.Prelude.{◌≤◌, length};

use crate::fixtures::{Failing, NOTHING, console, files, kernel, list, module_of, texts};
use crate::log_texts::{done_text, log_text};
use mv_commands::carry_out;
use mv_history::{Entry, How, Mark};
use mv_load::{Demo, guest_text};
use mv_outside::{MemFiles, VecSink};
use std::alloc::Global;
use std::process::Abort;
use std::test::Fail;

/// The new version answers `+OK` where the old one answers `OK`.
const FORWARD: &[u8] =
    b"mvrules 1\nrule\nwrite $f \"OK\\n\" -> all\nto\nwrite $f \"+OK\\n\" -> all\nend\n";

const REVERSE: &[u8] =
    b"mvrules 1\nrule\nwrite $f \"+OK\\n\" -> all\nto\nwrite $f \"OK\\n\" -> all\nend\n";

/// Rules whose third line is of no form.
const WORDLESS: &[u8] = b"mvrules 1\nrule\nspeak $f \"OK\\n\" -> all\nto\nend\n";

/// A rehearsal of the old version.
#[derive(Clone, Copy)]
struct Row<'a> {
    old: Demo,
    /// How often the schedule has leader, carry, three steps and judgement, and what stands behind that.
    blocks: usize,
    ending: &'a [u8],
    /// Options behind the names of the files.
    options: &'a [&'a str],
    orders: &'a [(usize, &'a str)],
    /// What comes over the one connection.
    pieces: &'a [&'a [u8]],
    /// The files of the accepted updates, as `audit` takes them.
    updates: &'a [&'a str],
    fails: Failing,
}

/// The old version with these orders and the piece `a`, over as many beats as are wanted.
fn ordered<'a>(orders: &'a [(usize, &'a str)], updates: &'a [&'a str]) -> Row<'a> {
    planned(30, b"", &[], orders, updates)
}

/// The same over another schedule, with these options.
fn planned<'a>(
    blocks: usize,
    ending: &'a [u8],
    options: &'a [&'a str],
    orders: &'a [(usize, &'a str)],
    updates: &'a [&'a str],
) -> Row<'a> {
    Row {
        old: Demo::Old,
        blocks,
        ending,
        options,
        orders,
        pieces: &[b"a"],
        updates,
        fails: NOTHING,
    }
}

/// A row in which the pieces `a` and `!` come.
fn trapping<'a>(old: Demo, orders: &'a [(usize, &'a str)], updates: &'a [&'a str]) -> Row<'a> {
    Row {
        old,
        blocks: 30,
        ending: b"",
        options: &[],
        orders,
        pieces: &[b"a", b"!"],
        updates,
        fails: NOTHING,
    }
}

/// What the program left.
#[derive(Drop)]
struct Left {
    status: u8,
    printed: Vec<u8>,
    /// The entries of the log, and the calls that the kernel did.
    log: String,
    done: String,
    /// What the operator was told.
    said: Vec<u8>,
    files: MemFiles,
}

/// Where these bytes begin in a text first.
fn place_of(text: &[u8], bytes: &[u8]) -> usize
    ensures { result ≤ length text.now }
{
    for at in 0..text.len() {
        if text[at..].starts_with(bytes) {
            return at;
        }
    }
    text.len()
}

/// The new version with another body of its transformer.
fn transformed_by(alloc: Global, body: &str) -> Result<Vec<u8>, Fail> {
    let text = guest_text(Demo::New);
    let mut changed = Vec::new(alloc);
    changed.extend_from_slice(&text[..place_of(text, b";; live_transform")])?;
    changed.extend_from_slice(b"func 5\n")?;
    changed.extend_from_slice(body.as_bytes())?;
    changed.extend_from_slice(b"endfunc\n")?;
    module_of(alloc, changed.as_slice())
}

/// The new version, which traps once it leads or follows.
fn trapping_at_once(alloc: Global) -> Result<Vec<u8>, Fail> {
    let text = guest_text(Demo::New);
    let mut changed = Vec::new(alloc);
    changed.extend_from_slice(&text[..place_of(text, b";; live_resume")])?;
    changed.extend_from_slice(b"func 0\nunreachable\nendfunc\n")?;
    changed.extend_from_slice(&text[place_of(text, b";; live_transform")..])?;
    module_of(alloc, changed.as_slice())
}

/// All files of a row.
fn shelf(rt: &impl Abort, alloc: Global, row: Row<'_>) -> Result<MemFiles, Fail> {
    let mut plan = Vec::new(alloc);
    for _ in 0..row.blocks {
        plan.extend_from_slice(b"LCFFFJ")?;
    }
    plan.extend_from_slice(row.ending)?;
    let old = module_of(alloc, guest_text(row.old))?;
    let new = module_of(alloc, guest_text(Demo::New))?;
    let bang = module_of(alloc, guest_text(Demo::Bang))?;
    let seven = transformed_by(alloc, "i32.const 7\n")?;
    // It writes what the new version answers to descriptor 4.
    let writes = transformed_by(
        alloc,
        "i32.const 4\ni32.const 1040\ni32.const 1\ni32.const 1048\ncall 5\n",
    )?;
    let traps = transformed_by(alloc, "unreachable\n")?;
    let stuck = trapping_at_once(alloc)?;
    let asks = transformed_by(alloc, "i32.const 1\ncall 2\ndrop\ni32.const 0\n")?;
    let named = [
        ("plan", plan.as_slice()),
        ("old", old.as_slice()),
        ("new", new.as_slice()),
        ("bang", bang.as_slice()),
        ("seven", seven.as_slice()),
        ("writes", writes.as_slice()),
        ("traps", traps.as_slice()),
        ("asks", asks.as_slice()),
        ("stuck", stuck.as_slice()),
        ("fwd", FORWARD),
        ("rev", REVERSE),
        ("wordless", WORDLESS),
    ];
    files(rt, alloc, &named, row.fails.read)
}

/// Carries out the first words and the second ones behind them.
fn carried(
    alloc: Global,
    words: &[&str],
    more: &[&str],
    row: Row<'_>,
    files: MemFiles,
) -> Result<Left, Fail> {
    let mut said = texts(alloc, words)?;
    for word in more {
        said.push(String::from_str(alloc, word)?)?;
    }
    let kernel = kernel(alloc, row.pieces, row.fails.call)?;
    let console = console(alloc, row.orders, row.fails.look, row.fails.reply)?;
    let mut sink = VecSink::new(alloc, list(alloc, row.fails.print)?);
    let came = carry_out(alloc, said.as_slice(), kernel, console, files, &mut sink);
    Ok(Left {
        status: came.status.code(),
        printed: Vec::from_slice(alloc, sink.bytes())?,
        log: log_text(alloc, came.log.entries.slice())?,
        done: done_text(alloc, came.kernel.done())?,
        said: Vec::from_slice(alloc, came.console.said())?,
        files: came.files,
    })
}

/// Rehearses a row, and audits its log.
fn rehearsed(rt: &impl Abort, alloc: Global, row: Row<'_>) -> Result<Left, Fail> {
    let files = shelf(rt, alloc, row)?;
    let words = ["rehearse", "old", "plan", "--log", "kept"];
    let left = carried(alloc, &words, row.options, row, files)?;
    let audit = ["audit", "kept", "old"];
    let well = Row {
        fails: NOTHING,
        ..row
    };
    let audited = carried(alloc, &audit, row.updates, well, left.files)?;
    assert!(rt; audited.status == 0 && audited.printed.as_slice() == b"yes\n".as_slice());
    Ok(Left {
        files: audited.files,
        ..left
    })
}

/// What the old version does alone, with the piece `a`.
const ALONE: &str = "point|accept 3 0 = fd 4|read 4 64 = bytes a|write 4 OK\n = count 3|\
point|read 4 64 = bytes |close 4 = done|point|accept 3 0 = errno 6|end Ended(0)|";

/// What is left behind the answer.
const QUIET: &str =
    "point|read 4 64 = bytes |close 4 = done|point|accept 3 0 = errno 6|end Ended(0)|";

/// The calls of the old version alone.
const SIX: &str = "accept 3 0 = fd 4|read 4 64 = bytes a|write 4 OK\n = count 3|\
read 4 64 = bytes |close 4 = done|accept 3 0 = errno 6|";

/// Rehearses a row, and compares its log, which has two parts, its status and its line.
fn expect(
    rt: &impl Abort,
    alloc: Global,
    row: Row<'_>,
    begins: &str,
    ends: &str,
    shown: (u8, &[u8]),
) -> Result<Left, Fail> {
    let left = rehearsed(rt, alloc, row)?;
    let log = format!(in alloc; "{begins}{ends}")?;
    assert_eq!(rt; left.log.as_str(), log.as_str());
    let (status, line) = shown;
    assert!(rt; left.status == status && left.printed.as_slice() == line);
    Ok(left)
}

const ENDED: (u8, &[u8]) = (0, b"ended 0\n");

#[test]
fn the_leader_changes_at_the_operators_word(rt: HostRuntime) -> Result<(), Fail> {
    let alloc = rt.alloc();
    let led = "order promote = Promote 0|hand Promote|promote|";
    let rows: [(&[(usize, &str)], &str, &str); 3] = [
        (
            &[(0, "update old none none"), (2, "promote"), (4, "finish")],
            led,
            "order finish = Finish 0|finish|",
        ),
        (
            &[(0, "update old none none"), (2, "promote"), (4, "back")],
            led,
            "order back = Back 0|hand Back|back|",
        ),
        // It can't be finished before it leads.
        (
            &[(0, "update old none none"), (2, "finish")],
            "",
            "order finish = not in OldLeads|",
        ),
    ];
    for (orders, led, changed) in rows {
        let row = ordered(orders, &["old", "none", "none"]);
        let begins = format!(in alloc;
            "order update old none none = Update 1|fork 1|{led}{changed}"
        )?;
        let left = expect(&rt, alloc, row, begins.as_str(), ALONE, ENDED)?;
        assert_eq!(rt; left.done.as_str(), SIX);
    }
    Ok(())
}

#[test]
fn the_new_version_answers_in_its_own_words(rt: HostRuntime) -> Result<(), Fail> {
    let row = ordered(
        &[(0, "update new fwd rev"), (2, "promote"), (4, "finish")],
        &["new", "fwd", "rev"],
    );
    let begins =
        "order update new fwd rev = Update 1|fork 1|order promote = Promote 0|hand Promote|promote|\
order finish = Finish 0|finish|point|accept 3 0 = fd 4|read 4 64 = bytes a|write 4 +OK\n = count 4|";
    let left = expect(&rt, rt.alloc(), row, begins, QUIET, ENDED)?;
    let six = "accept 3 0 = fd 4|read 4 64 = bytes a|write 4 +OK\n = count 4|\
read 4 64 = bytes |close 4 = done|accept 3 0 = errno 6|";
    assert_eq!(rt; left.done.as_str(), six);
    Ok(())
}

#[test]
fn an_update_is_discarded_for_its_cause(rt: HostRuntime) -> Result<(), Fail> {
    let alloc = rt.alloc();
    let rows = [
        ("seven", "none", "Code(7)"),
        ("writes", "none", "Transform(CallInTransform)"),
        ("traps", "none", "Transform(Unreachable)"),
        ("asks", "none", "Transform(OldGlobal)"),
        ("new", "wordless", "Forward rules Word 3"),
    ];
    for (module, forward, cause) in rows {
        let order = format!(in alloc; "update {module} {forward} none")?;
        let orders = [(0, order.as_str())];
        let updates = [module, forward, "none"];
        let begins = format!(in alloc; "order {order} = Update 1|fork 1|discard {cause}|")?;
        let row = ordered(&orders, &updates);
        let left = expect(&rt, alloc, row, begins.as_str(), ALONE, ENDED)?;
        assert_eq!(rt; left.done.as_str(), SIX);
    }
    // Without rules the answers differ, at the third item.
    let row = ordered(&[(0, "update new none none")], &["new", "none", "none"]);
    let begins = "order update new none none = Update 1|fork 1|\
point|accept 3 0 = fd 4|read 4 64 = bytes a|write 4 OK\n = count 3|\
discard mismatch 2 want write 4 OK\n got write 4 +OK\n|";
    let left = expect(&rt, alloc, row, begins, QUIET, ENDED)?;
    assert_eq!(rt; left.done.as_str(), SIX);
    Ok(())
}

#[test]
fn a_trap_of_the_leader_is_survived_by_the_other(rt: HostRuntime) -> Result<(), Fail> {
    let alloc = rt.alloc();
    // The new version leads, and traps.
    let led = "order update bang fwd rev = Update 1|fork 1|\
point|accept 3 0 = fd 4|read 4 64 = bytes a|write 4 OK\n = count 3|\
order promote = Promote 0|hand Promote|promote|point|read 4 64 = bytes !|hand Trap(Unreachable)|back|";
    let orders = [(0, "update bang fwd rev"), (6, "promote")];
    let updates = ["bang", "fwd", "rev"];
    let row = trapping(Demo::Old, &orders, &updates);
    let begins = format!(in alloc; "{led}write 4 OK\n = count 3|")?;
    let left = expect(&rt, alloc, row, begins.as_str(), QUIET, ENDED)?;
    let eight = "accept 3 0 = fd 4|read 4 64 = bytes a|write 4 OK\n = count 3|\
read 4 64 = bytes !|write 4 OK\n = count 3|read 4 64 = bytes |close 4 = done|accept 3 0 = errno 6|";
    assert_eq!(rt; left.done.as_str(), eight);
    // The old one traps there too.
    let row = trapping(Demo::OldBang, &orders, &updates);
    let trapped: (u8, &[u8]) = (5, b"trapped Unreachable\n");
    expect(&rt, alloc, row, led, "end Trapped(Unreachable)|", trapped)?;
    // The old version leads, and traps.
    let orders = [(0, "update new fwd rev")];
    let updates = ["new", "fwd", "rev"];
    let row = trapping(Demo::OldBang, &orders, &updates);
    let begins = "order update new fwd rev = Update 1|fork 1|\
point|accept 3 0 = fd 4|read 4 64 = bytes a|write 4 OK\n = count 3|\
point|read 4 64 = bytes !|hand Trap(Unreachable)|over|write 4 +OK\n = count 4|";
    expect(&rt, alloc, row, begins, QUIET, ENDED)?;
    Ok(())
}

#[test]
fn a_version_that_traps_once_it_leads_is_rolled_back(rt: HostRuntime) -> Result<(), Fail> {
    let led =
        "order update stuck none none = Update 1|fork 1|order promote = Promote 0|hand Promote|promote|";
    let updates = ["stuck", "none", "none"];
    let orders = [(0, "update stuck none none"), (2, "promote")];
    let begins = format!(in rt.alloc(); "{led}hand Trap(Unreachable)|back|")?;
    let row = ordered(&orders, &updates);
    expect(&rt, rt.alloc(), row, begins.as_str(), ALONE, ENDED)?;
    // Once the old version is finished nobody is left to lead.
    let orders = [(0, "update stuck none none"), (2, "promote"), (4, "finish")];
    let ends = "order finish = Finish 0|finish|end Trapped(Unreachable)|";
    let row = ordered(&orders, &updates);
    expect(
        &rt,
        rt.alloc(),
        row,
        led,
        ends,
        (5, b"trapped Unreachable\n"),
    )?;
    Ok(())
}

/// An update that makes equal calls, leads and is finished.
const FINISHES: &str =
    "order update old none none = Update 1|fork 1|order promote = Promote 0|hand Promote|promote|\
order finish = Finish 0|finish|";

#[test]
fn failures_outside_show_where_a_schedule_is_rehearsed(rt: HostRuntime) -> Result<(), Fail> {
    let alloc = rt.alloc();
    let orders = [(0, "update old none none"), (2, "promote"), (4, "finish")];
    let updates = ["old", "none", "none"];
    let call = Failing {
        call: Some(2),
        ..NOTHING
    };
    let look = Failing {
        look: Some(2),
        ..NOTHING
    };
    let reply = Failing {
        reply: Some(0),
        ..NOTHING
    };
    let print = Failing {
        print: Some(0),
        ..NOTHING
    };
    let followed = "order update old none none = Update 1|fork 1|";
    let unmade = "point|accept 3 0 = fd 4|read 4 64 = bytes a|end KernelFault|";
    let rows: [(Failing, &str, &str, (u8, &[u8])); 4] = [
        // The write isn't done, and the run ends.
        (call, FINISHES, unmade, (6, b"kernel fault\n")),
        // The look that would have had `promote`, or the first reply: no order comes any more.
        (look, followed, ALONE, ENDED),
        (reply, followed, ALONE, ENDED),
        // Half of the line was printed.
        (print, FINISHES, ALONE, (7, b"ende")),
    ];
    for (fails, begins, ends, shown) in rows {
        let row = Row {
            fails,
            ..ordered(&orders, &updates)
        };
        let left = expect(&rt, alloc, row, begins, ends, shown)?;
        // Of a reply that failed a part is told at most.
        let told = b"{\"ok\":\"update\",\"update\":1}\n".as_slice();
        let part = told.starts_with(left.said.as_slice()) && left.said.len() < told.len();
        assert!(rt; part == fails.reply.is_some());
    }
    // The module of the update, which is read behind OLD and SCHEDULE.
    let row = Row {
        fails: Failing {
            read: Some(2),
            ..NOTHING
        },
        ..ordered(&[(0, "update old none none")], &[])
    };
    let left = expect(
        &rt,
        alloc,
        row,
        "order update old none none = failed old|",
        ALONE,
        ENDED,
    )?;
    assert!(rt; left.said.as_slice() == b"{\"no\":\"failed\",\"path\":\"old\"}\n".as_slice());
    // OLD itself.
    let row = Row {
        fails: Failing {
            read: Some(0),
            ..NOTHING
        },
        ..ordered(&[], &[])
    };
    let left = carried(
        alloc,
        &["rehearse", "old", "plan"],
        &[],
        row,
        shelf(&rt, alloc, row)?,
    )?;
    assert!(rt; left.status == 3 && left.printed.as_slice() == b"mv: file old\n".as_slice());
    Ok(())
}

/// A guest that stands at update points for ever.
const WAITING: &[u8] =
    b"type ->\ntype -> i32\nimport \"live\" \"point\" 1\nexport \"_start\" func 1\n\
func 0\nloop\ncall 0\ndrop\nbr 0\nend\nendfunc\n";

/// How many of the entries are update points.
fn points(entries: &[Entry]) -> u64 {
    let mut count: u64 = 0;
    for entry in entries {
        if matches!(entry, Entry::Point) {
            count = count.saturating_add(1);
        }
    }
    count
}

/// Whether the entry ends a log that has no place left.
fn is_limit(entry: &Entry) -> bool {
    match entry {
        Entry::Mark(Mark::End { how }) => *how == How::LogLimit,
        _ => false,
    }
}

/// Whether a log ends for want of a place in it.
fn is_full(entries: &[Entry]) -> bool {
    match entries.last() {
        Some(last) => is_limit(last),
        None => false,
    }
}

#[test]
fn a_full_log_ends_its_run(rt: HostRuntime) -> Result<(), Fail> {
    let alloc = rt.alloc();
    let guest = module_of(alloc, WAITING)?;
    let files = files(&rt, alloc, &[("waiting", guest.as_slice())], None)?;
    let said = texts(alloc, &["run", "waiting"])?;
    let (kernel, console) = (kernel(alloc, &[], None)?, console(alloc, &[], None, None)?);
    let mut sink = VecSink::new(alloc, Vec::new(alloc));
    let came = carry_out(alloc, said.as_slice(), kernel, console, files, &mut sink);
    assert!(rt; came.status.code() == 10 && sink.bytes() == b"log limit\n".as_slice());
    let entries = came.log.entries.slice();
    assert!(rt; entries.len() == 999_991 && points(entries) == 999_990 && is_full(entries));
    Ok(())
}

#[test]
fn a_load_is_rehearsed_by_its_number(rt: HostRuntime) -> Result<(), Fail> {
    let row = ordered(&[], &[]);
    let left = carried(
        rt.alloc(),
        &["load", "1"],
        &[],
        row,
        shelf(&rt, rt.alloc(), row)?,
    )?;
    let figures =
        b"calls 12\nbytes 127\nforks 1\npromotes 1\nstage NewAlone\naudit yes\n".as_slice();
    assert!(rt; left.status == 0 && left.printed.as_slice() == figures);
    // The kernel that was handed in did nothing.
    assert_eq!(rt; left.done.as_str(), "");
    Ok(())
}

#[test]
fn a_rehearsal_is_cut_where_its_schedule_ends(rt: HostRuntime) -> Result<(), Fail> {
    let cut: (u8, &[u8]) = (0, b"cut\n");
    // The feed is full at the eighth turn; the next read waits until a message was taken.
    let full = "order update old none none = Update 1|fork 1|\
point|accept 3 0 = fd 4|read 4 64 = bytes a|write 4 OK\n = count 3|point|";
    let rows: [(&[u8], &str); 2] = [
        (b"LLLLLLLL", "end Cut|"),
        (b"LLLLLLLLCL", "read 4 64 = bytes |end Cut|"),
    ];
    for (ending, ends) in rows {
        let orders = [(0, "update old none none")];
        let updates = ["old", "none", "none"];
        let row = planned(0, ending, &["--ring", "4"], &orders, &updates);
        expect(&rt, rt.alloc(), row, full, ends, cut)?;
    }
    // A mismatch is found before the order, and judged behind it, or behind the next fork.
    let found = "order update new none none = Update 1|fork 1|\
point|accept 3 0 = fd 4|read 4 64 = bytes a|write 4 OK\n = count 3|\
order discard = Discard 0|discard order 6|";
    let rows: [(&[u8], &[(usize, &str)], &str); 2] = [
        (
            b"LCFFLLJ",
            &[(0, "update new none none"), (6, "discard")],
            "end Cut|",
        ),
        (
            b"LCFFLLLLJ",
            &[
                (0, "update new none none"),
                (6, "discard"),
                (7, "update new none none"),
            ],
            "order update new none none = Update 2|fork 2|end Cut|",
        ),
    ];
    for (ending, orders, ends) in rows {
        let updates = ["new", "none", "none", "new", "none", "none"];
        let row = planned(5, ending, &[], orders, &updates);
        expect(&rt, rt.alloc(), row, found, ends, cut)?;
    }
    Ok(())
}

#[test]
fn orders_out_of_place_are_answered(rt: HostRuntime) -> Result<(), Fail> {
    let row = ordered(&[(0, "promote"), (1, "status"), (2, "jump")], &[]);
    let begins =
        "order promote = not in OldAlone|order status = OldAlone 0 Never|order jump = unknown jump|";
    let left = expect(&rt, rt.alloc(), row, begins, ALONE, ENDED)?;
    let lines = b"{\"no\":\"stage\",\"now\":\"OldAlone\"}\n\
{\"last\":\"never\",\"ok\":\"status\",\"stage\":\"OldAlone\",\"update\":0}\n\
{\"no\":\"unknown\",\"text\":\"jump\"}\n";
    assert!(rt; left.said.as_slice() == lines.as_slice());
    Ok(())
}

/// The log of an update that makes equal calls, leads and is finished, as it is shown.
const FINISHED: &[u8] = b"\
{\"kind\":\"order\",\"number\":0,\"reply\":{\"ok\":\"update\",\"update\":1},\"text\":\"update old none none\"}\n\
{\"kind\":\"mark\",\"mark\":\"fork\",\"number\":1,\"update\":1}\n\
{\"kind\":\"order\",\"number\":2,\"reply\":{\"ok\":\"promote\"},\"text\":\"promote\"}\n\
{\"kind\":\"mark\",\"mark\":\"hand\",\"number\":3,\"why\":\"promote\"}\n\
{\"kind\":\"mark\",\"mark\":\"promote\",\"number\":4}\n\
{\"kind\":\"order\",\"number\":5,\"reply\":{\"ok\":\"finish\"},\"text\":\"finish\"}\n\
{\"kind\":\"mark\",\"mark\":\"finish\",\"number\":6}\n\
{\"kind\":\"point\",\"number\":7}\n\
{\"call\":{\"call\":\"accept\",\"fd\":3,\"flags\":0},\"kind\":\"call\",\"number\":8,\"reply\":{\"fd\":4,\"reply\":\"fd\"}}\n\
{\"call\":{\"call\":\"read\",\"cap\":64,\"fd\":4},\"kind\":\"call\",\"number\":9,\"reply\":{\"bytes\":\"a\",\"reply\":\"bytes\"}}\n\
{\"call\":{\"bytes\":\"OK\\n\",\"call\":\"write\",\"fd\":4},\"kind\":\"call\",\"number\":10,\"reply\":{\"count\":3,\"reply\":\"count\"}}\n\
{\"kind\":\"point\",\"number\":11}\n\
{\"call\":{\"call\":\"read\",\"cap\":64,\"fd\":4},\"kind\":\"call\",\"number\":12,\"reply\":{\"bytes\":\"\",\"reply\":\"bytes\"}}\n\
{\"call\":{\"call\":\"close\",\"fd\":4},\"kind\":\"call\",\"number\":13,\"reply\":{\"reply\":\"done\"}}\n\
{\"kind\":\"point\",\"number\":14}\n\
{\"call\":{\"call\":\"accept\",\"fd\":3,\"flags\":0},\"kind\":\"call\",\"number\":15,\"reply\":{\"errno\":6,\"reply\":\"errno\"}}\n\
{\"code\":0,\"how\":\"ended\",\"kind\":\"mark\",\"mark\":\"end\",\"number\":16}\n";

#[test]
fn a_log_is_shown_and_refused_where_it_is_changed(rt: HostRuntime) -> Result<(), Fail> {
    let alloc = rt.alloc();
    let row = ordered(
        &[(0, "update old none none"), (2, "promote"), (4, "finish")],
        &["old", "none", "none"],
    );
    let left = rehearsed(&rt, alloc, row)?;
    let mut log = Vec::new(alloc);
    if let Some(bytes) = left.files.content(b"kept") {
        log.extend_from_slice(bytes)?;
    }
    let shown = carried(alloc, &["show", "kept"], &[], row, left.files)?;
    assert!(rt; shown.status == 0 && shown.printed.as_slice() == FINISHED);
    // Behind the last call's errno stand the length of the end's entry, of four bytes, and its seven.
    assert!(rt; log.len() > 13);
    let errno = log.len() - 13;
    assert!(rt; log[errno] == 6);
    log[errno] = 7;
    let old = module_of(alloc, guest_text(Demo::Old))?;
    let named = [("old", old.as_slice()), ("kept", log.as_slice())];
    let files = files(&rt, alloc, &named, None)?;
    let audited = carried(alloc, &["audit", "kept", "old"], row.updates, row, files)?;
    assert!(rt; audited.status == 8 && audited.printed.as_slice() == b"no 16\n".as_slice());
    Ok(())
}
