//! Rows of logs of the small guest: each mark, each cause and each answer once where it may come, and once where it may not
//! (docs/DEFINITIONS.md, "Legal logs"; docs/FORMATS.md, "Orders").

use crate::auditing::{Audit, may_enter};
use crate::fold::first_illegal;
use crate::tests::{Small, order};
use mv_calls::{Bytes, Call, Item, OutOfMemory, Reply, Trap};
use mv_history::{Cause, Entry, How, Mark, Side, Status, Update, Updates, Why};
use mv_orders::{Last, OrderReply, Stage, Word};
use mv_rules::{RuleFault, RuleKind};
use mv_syntax::BornFault;
use mv_version::Event;
use std::alloc::Global;
use std::test::*;

/// The entry may come.
const MAY: Option<bool> = Some(true);

/// The entry may not come, and those before it may.
const MAY_NOT: Option<bool> = Some(false);

const NO_RULES: &[u8] = b"mvrules 1\n";

/// A file whose first line is that of no rules file.
const BAD_RULES: &[u8] = b"rules\n";

/// The fault of that file.
const BAD_HEADER: RuleFault = RuleFault {
    line: 1,
    kind: RuleKind::Header,
};

/// The files of one update.
fn files(
    alloc: Global,
    module: &[u8],
    forward: &[u8],
    reverse: &[u8],
) -> Result<Updates, OutOfMemory> {
    let mut updates = Updates::new(alloc);
    updates.reserve(1)?;
    updates.push(Update {
        module: Bytes::from_slice(alloc, module)?,
        forward: Bytes::from_slice(alloc, forward)?,
        reverse: Bytes::from_slice(alloc, reverse)?,
    });
    Ok(updates)
}

/// The files of an update with this module and no rules.
fn module(alloc: Global, module: &[u8]) -> Result<Updates, OutOfMemory> {
    files(alloc, module, NO_RULES, NO_RULES)
}

/// The entries with a mark behind them.
fn marked(entries: Vec<Entry>, mark: Mark) -> Result<Vec<Entry>, OutOfMemory> {
    let mut entries = entries;
    entries.push(Entry::Mark(mark))?;
    Ok(entries)
}

/// The entries with an accepted order behind them.
fn ordered(
    alloc: Global,
    entries: Vec<Entry>,
    text: &[u8],
    word: Word,
) -> Result<Vec<Entry>, OutOfMemory> {
    let mut entries = entries;
    entries.push(order(alloc, text, word, 0)?)?;
    Ok(entries)
}

/// The entries with a point that is passed behind them.
fn passed(entries: Vec<Entry>) -> Result<Vec<Entry>, OutOfMemory> {
    let mut entries = entries;
    entries.push(Entry::Point)?;
    Ok(entries)
}

/// The entries with a call behind them.
fn called(entries: Vec<Entry>, call: Call) -> Result<Vec<Entry>, OutOfMemory> {
    let mut entries = entries;
    entries.push(Entry::Call {
        item: Item {
            call,
            reply: Reply::Errno(6),
        },
    })?;
    Ok(entries)
}

/// An update is wanted, 1 entry.
fn staged(alloc: Global) -> Result<Vec<Entry>, OutOfMemory> {
    let mut entries = Vec::new(alloc);
    entries.push(order(alloc, b"update m f r", Word::Update, 1)?)?;
    Ok(entries)
}

/// The old version leads, 2 entries.
fn forked(alloc: Global) -> Result<Vec<Entry>, OutOfMemory> {
    marked(staged(alloc)?, Mark::Fork { update: 1 })
}

/// The follower has heard a read, 4 entries.
fn heard(alloc: Global) -> Result<Vec<Entry>, OutOfMemory> {
    called(passed(forked(alloc)?)?, Call::Read { fd: 0, cap: 4 })
}

/// A promotion is asked for, 4 entries.
fn handed(alloc: Global) -> Result<Vec<Entry>, OutOfMemory> {
    let entries = ordered(alloc, forked(alloc)?, b"promote", Word::Promote)?;
    marked(entries, Mark::Hand { why: Why::Promote })
}

/// The new version leads, 5 entries.
fn promoted(alloc: Global) -> Result<Vec<Entry>, OutOfMemory> {
    marked(handed(alloc)?, Mark::Promote)
}

/// The leader, which begins in `Breaks`, has passed its point and asks for a hand-over because it trapped, 4 entries.
fn trapped(alloc: Global) -> Result<Vec<Entry>, OutOfMemory> {
    let why = Why::Trap(Trap::Unreachable);
    marked(passed(forked(alloc)?)?, Mark::Hand { why })
}

/// Whether the entry may come behind these, which may. None where one of these may not.
fn judged(
    alloc: Global,
    lead: Small,
    updates: &Updates,
    before: Vec<Entry>,
    entry: Entry,
) -> Result<Option<bool>, OutOfMemory> {
    let mut entries = before;
    let last = entries.len() as u64;
    entries.push(entry)?;
    match first_illegal(alloc, lead, updates, entries.as_slice())? {
        None => Ok(MAY),
        Some(first) => Ok(if first == last { MAY_NOT } else { None }),
    }
}

/// Whether the mark may come behind these, of the guest from its beginning, with an update to an equal version.
fn mark_at(alloc: Global, before: Vec<Entry>, mark: Mark) -> Result<Option<bool>, OutOfMemory> {
    let updates = module(alloc, b"new")?;
    judged(alloc, Small::Begins, &updates, before, Entry::Mark(mark))
}

/// The same of a guest that begins so.
fn mark_of(
    alloc: Global,
    lead: Small,
    before: Vec<Entry>,
    mark: Mark,
) -> Result<Option<bool>, OutOfMemory> {
    let updates = module(alloc, b"new")?;
    judged(alloc, lead, &updates, before, Entry::Mark(mark))
}

/// Whether the run of a guest that begins so may end so at once.
fn end_of(alloc: Global, lead: Small, how: How) -> Result<Option<bool>, OutOfMemory> {
    mark_of(alloc, lead, Vec::new(alloc), Mark::End { how })
}

/// Whether the follower of these files may be given up for this cause.
fn cause_of(
    alloc: Global,
    updates: &Updates,
    before: Vec<Entry>,
    cause: Cause,
) -> Result<Option<bool>, OutOfMemory> {
    let entry = Entry::Mark(Mark::Discard { cause });
    judged(alloc, Small::Begins, updates, before, entry)
}

/// Whether the line may be answered so.
fn answer_at(
    alloc: Global,
    before: Vec<Entry>,
    text: &[u8],
    reply: OrderReply,
) -> Result<Option<bool>, OutOfMemory> {
    let entry = Entry::Order {
        text: Bytes::from_slice(alloc, text)?,
        reply,
    };
    judged(alloc, Small::Begins, &module(alloc, b"new")?, before, entry)
}

#[test]
fn a_copy_is_for_the_wanted_update_at_a_point(rt: HostRuntime) -> Result<(), Fail> {
    let alloc = rt.alloc();
    let none = Vec::new(alloc);
    assert!(rt; mark_at(alloc, staged(alloc)?, Mark::Fork { update: 1 })? == MAY);
    assert!(rt; mark_at(alloc, staged(alloc)?, Mark::Fork { update: 2 })? == MAY_NOT);
    assert!(rt; mark_at(alloc, none, Mark::Fork { update: 1 })? == MAY_NOT);
    let elsewhere = mark_of(
        alloc,
        Small::Reads,
        staged(alloc)?,
        Mark::Fork { update: 1 },
    )?;
    assert!(rt; elsewhere == MAY_NOT);
    Ok(())
}

#[test]
fn a_copy_is_wanting_only_where_one_is_wanted(rt: HostRuntime) -> Result<(), Fail> {
    let alloc = rt.alloc();
    assert!(rt; mark_at(alloc, staged(alloc)?, Mark::NoCopy { update: 1 })? == MAY);
    assert!(rt; mark_at(alloc, forked(alloc)?, Mark::NoCopy { update: 1 })? == MAY_NOT);
    Ok(())
}

#[test]
fn a_hand_over_is_asked_where_it_is_wanted(rt: HostRuntime) -> Result<(), Fail> {
    let alloc = rt.alloc();
    let promote = ordered(alloc, forked(alloc)?, b"promote", Word::Promote)?;
    assert!(rt; mark_at(alloc, promote, Mark::Hand { why: Why::Promote })? == MAY);
    assert!(rt; mark_at(alloc, forked(alloc)?, Mark::Hand { why: Why::Promote })? == MAY_NOT);
    let back = ordered(alloc, promoted(alloc)?, b"back", Word::Back)?;
    assert!(rt; mark_at(alloc, back, Mark::Hand { why: Why::Back })? == MAY);
    assert!(rt; mark_at(alloc, promoted(alloc)?, Mark::Hand { why: Why::Back })? == MAY_NOT);
    Ok(())
}

#[test]
fn a_hand_over_is_asked_where_the_leader_traps(rt: HostRuntime) -> Result<(), Fail> {
    let alloc = rt.alloc();
    let trap = Why::Trap(Trap::Unreachable);
    let beside = passed(forked(alloc)?)?;
    assert!(rt; mark_of(alloc, Small::Breaks, beside, Mark::Hand { why: trap })? == MAY);
    let early = forked(alloc)?;
    assert!(rt; mark_of(alloc, Small::Breaks, early, Mark::Hand { why: trap })? == MAY_NOT);
    let alone = Vec::new(alloc);
    assert!(rt; mark_of(alloc, Small::Traps, alone, Mark::Hand { why: trap })? == MAY_NOT);
    Ok(())
}

#[test]
fn the_new_version_leads_where_that_is_asked(rt: HostRuntime) -> Result<(), Fail> {
    let alloc = rt.alloc();
    assert!(rt; mark_at(alloc, handed(alloc)?, Mark::Promote)? == MAY);
    assert!(rt; mark_at(alloc, forked(alloc)?, Mark::Promote)? == MAY_NOT);
    assert!(rt; mark_of(alloc, Small::Breaks, trapped(alloc)?, Mark::Over)? == MAY);
    assert!(rt; mark_at(alloc, handed(alloc)?, Mark::Over)? == MAY_NOT);
    Ok(())
}

#[test]
fn the_new_version_leads_only_where_it_was_born(rt: HostRuntime) -> Result<(), Fail> {
    let alloc = rt.alloc();
    let promote = Entry::Mark(Mark::Promote);
    let unborn = judged(
        alloc,
        Small::Begins,
        &module(alloc, b"")?,
        handed(alloc)?,
        promote,
    )?;
    assert!(rt; unborn == MAY_NOT);
    let over = Entry::Mark(Mark::Over);
    let refused = files(alloc, b"new", NO_RULES, BAD_RULES)?;
    let unread = judged(alloc, Small::Breaks, &refused, trapped(alloc)?, over)?;
    assert!(rt; unread == MAY_NOT);
    Ok(())
}

#[test]
fn the_old_version_leads_again_where_that_is_asked(rt: HostRuntime) -> Result<(), Fail> {
    let alloc = rt.alloc();
    let wanted = ordered(alloc, promoted(alloc)?, b"back", Word::Back)?;
    let asked = marked(wanted, Mark::Hand { why: Why::Back })?;
    assert!(rt; mark_at(alloc, asked, Mark::Back)? == MAY);
    assert!(rt; mark_at(alloc, promoted(alloc)?, Mark::Back)? == MAY_NOT);
    assert!(rt; mark_of(alloc, Small::Breaks, trapped(alloc)?, Mark::Back)? == MAY_NOT);
    let why = Why::Trap(Trap::Unreachable);
    let broken = marked(passed(promoted(alloc)?)?, Mark::Hand { why })?;
    assert!(rt; mark_of(alloc, Small::Breaks, broken, Mark::Back)? == MAY);
    Ok(())
}

#[test]
fn the_old_version_is_let_go_where_that_is_wanted(rt: HostRuntime) -> Result<(), Fail> {
    let alloc = rt.alloc();
    let finish = ordered(alloc, promoted(alloc)?, b"finish", Word::Finish)?;
    assert!(rt; mark_at(alloc, finish, Mark::Finish)? == MAY);
    assert!(rt; mark_at(alloc, promoted(alloc)?, Mark::Finish)? == MAY_NOT);
    Ok(())
}

#[test]
fn a_follower_is_given_up_in_its_stage(rt: HostRuntime) -> Result<(), Fail> {
    let alloc = rt.alloc();
    let discard = Mark::Discard {
        cause: Cause::Memory,
    };
    assert!(rt; mark_at(alloc, forked(alloc)?, discard)? == MAY);
    let discard = Mark::Discard {
        cause: Cause::Memory,
    };
    assert!(rt; mark_at(alloc, promoted(alloc)?, discard)? == MAY_NOT);
    let dropped = Mark::Dropped {
        cause: Cause::Memory,
    };
    assert!(rt; mark_at(alloc, promoted(alloc)?, dropped)? == MAY);
    let dropped = Mark::Dropped {
        cause: Cause::Memory,
    };
    assert!(rt; mark_at(alloc, forked(alloc)?, dropped)? == MAY_NOT);
    Ok(())
}

#[test]
fn a_run_ends_as_its_guest_does(rt: HostRuntime) -> Result<(), Fail> {
    let alloc = rt.alloc();
    assert!(rt; end_of(alloc, Small::Ends, How::Ended(0))? == MAY);
    assert!(rt; end_of(alloc, Small::Ends, How::Ended(1))? == MAY_NOT);
    assert!(rt; end_of(alloc, Small::Traps, How::Trapped(Trap::Unreachable))? == MAY);
    assert!(rt; end_of(alloc, Small::Traps, How::Trapped(Trap::Bounds))? == MAY_NOT);
    let beside = passed(forked(alloc)?)?;
    let how = How::Trapped(Trap::Unreachable);
    assert!(rt; mark_of(alloc, Small::Breaks, beside, Mark::End { how })? == MAY_NOT);
    Ok(())
}

#[test]
fn a_run_ends_from_outside(rt: HostRuntime) -> Result<(), Fail> {
    let alloc = rt.alloc();
    let halt = ordered(alloc, Vec::new(alloc), b"halt", Word::Halt)?;
    assert!(rt; mark_at(alloc, halt, Mark::End { how: How::Halted })? == MAY);
    assert!(rt; end_of(alloc, Small::Begins, How::Halted)? == MAY_NOT);
    assert!(rt; end_of(alloc, Small::Reads, How::KernelFault)? == MAY);
    assert!(rt; end_of(alloc, Small::Begins, How::KernelFault)? == MAY_NOT);
    Ok(())
}

#[test]
fn a_run_ends_once(rt: HostRuntime) -> Result<(), Fail> {
    let alloc = rt.alloc();
    assert!(rt; end_of(alloc, Small::Begins, How::Memory)? == MAY);
    assert!(rt; end_of(alloc, Small::Begins, How::Cut)? == MAY);
    let ended = marked(Vec::new(alloc), Mark::End { how: How::Cut })?;
    assert!(rt; mark_at(alloc, ended, Mark::End { how: How::Memory })? == MAY_NOT);
    let ended = marked(Vec::new(alloc), Mark::End { how: How::Memory })?;
    assert!(rt; mark_at(alloc, ended, Mark::End { how: How::Cut })? == MAY_NOT);
    Ok(())
}

/// Whether a run may end by the limit of its log, where that has so many entries.
fn ends_full(alloc: Global, since: u64) -> Result<bool, OutOfMemory> {
    let audit = Audit {
        lead: Small::Begins,
        follower: None,
        status: Status {
            since,
            ..Status::new()
        },
    };
    let entry = Entry::Mark(Mark::End { how: How::LogLimit });
    may_enter(alloc, &audit, &Event::Point, &[], &entry)
}

#[test]
fn a_run_ends_at_the_limit_of_its_log(rt: HostRuntime) -> Result<(), Fail> {
    let alloc = rt.alloc();
    assert!(rt; ends_full(alloc, 999_990)?);
    assert!(rt; !ends_full(alloc, 999_989)?);
    assert!(rt; end_of(alloc, Small::Begins, How::LogLimit)? == MAY_NOT);
    Ok(())
}

/// The cause of refused forward rules.
fn bad_forward() -> Cause {
    Cause::Rules {
        side: Side::Forward,
        fault: BAD_HEADER,
    }
}

/// The cause of refused reverse rules.
fn bad_reverse() -> Cause {
    Cause::Rules {
        side: Side::Reverse,
        fault: BAD_HEADER,
    }
}

#[test]
fn refused_forward_rules_are_a_cause(rt: HostRuntime) -> Result<(), Fail> {
    let alloc = rt.alloc();
    let bad = files(alloc, b"new", BAD_RULES, NO_RULES)?;
    assert!(rt; cause_of(alloc, &bad, forked(alloc)?, bad_forward())? == MAY);
    assert!(rt; cause_of(alloc, &bad, forked(alloc)?, bad_reverse())? == MAY_NOT);
    let good = module(alloc, b"new")?;
    assert!(rt; cause_of(alloc, &good, forked(alloc)?, bad_forward())? == MAY_NOT);
    Ok(())
}

#[test]
fn refused_reverse_rules_are_a_cause(rt: HostRuntime) -> Result<(), Fail> {
    let alloc = rt.alloc();
    let bad = files(alloc, b"new", NO_RULES, BAD_RULES)?;
    assert!(rt; cause_of(alloc, &bad, forked(alloc)?, bad_reverse())? == MAY);
    let both = files(alloc, b"new", BAD_RULES, BAD_RULES)?;
    assert!(rt; cause_of(alloc, &both, forked(alloc)?, bad_reverse())? == MAY_NOT);
    let other = Cause::Rules {
        side: Side::Reverse,
        fault: RuleFault {
            line: 2,
            kind: RuleKind::Header,
        },
    };
    assert!(rt; cause_of(alloc, &bad, forked(alloc)?, other)? == MAY_NOT);
    Ok(())
}

#[test]
fn a_refused_birth_is_a_cause(rt: HostRuntime) -> Result<(), Fail> {
    let alloc = rt.alloc();
    let empty = module(alloc, b"")?;
    let cause = Cause::Refused(BornFault::NoTransform);
    assert!(rt; cause_of(alloc, &empty, forked(alloc)?, cause)? == MAY);
    let other = Cause::Refused(BornFault::NoResume);
    assert!(rt; cause_of(alloc, &empty, forked(alloc)?, other)? == MAY_NOT);
    let good = module(alloc, b"new")?;
    let cause = Cause::Refused(BornFault::NoTransform);
    assert!(rt; cause_of(alloc, &good, forked(alloc)?, cause)? == MAY_NOT);
    Ok(())
}

/// The cause of a trap.
fn trap_at(k: u64, trap: Trap) -> Cause {
    Cause::Trap { k, trap }
}

#[test]
fn a_trap_of_the_follower_is_a_cause(rt: HostRuntime) -> Result<(), Fail> {
    let alloc = rt.alloc();
    let traps = module(alloc, b"!")?;
    let first = trap_at(0, Trap::Unreachable);
    assert!(rt; cause_of(alloc, &traps, heard(alloc)?, first)? == MAY);
    let second = trap_at(1, Trap::Unreachable);
    assert!(rt; cause_of(alloc, &traps, heard(alloc)?, second)? == MAY_NOT);
    let other = trap_at(0, Trap::Bounds);
    assert!(rt; cause_of(alloc, &traps, heard(alloc)?, other)? == MAY_NOT);
    let early = trap_at(0, Trap::Unreachable);
    assert!(rt; cause_of(alloc, &traps, forked(alloc)?, early)? == MAY_NOT);
    Ok(())
}

/// The cause of another event than the first read.
fn mismatch(got: Event) -> Cause {
    Cause::Mismatch {
        k: 0,
        want: Call::Read { fd: 0, cap: 4 },
        got,
    }
}

#[test]
fn a_mismatch_is_a_cause(rt: HostRuntime) -> Result<(), Fail> {
    let alloc = rt.alloc();
    let quits = module(alloc, b".")?;
    let end = mismatch(Event::Ends(7));
    assert!(rt; cause_of(alloc, &quits, heard(alloc)?, end)? == MAY);
    let other = mismatch(Event::Ends(0));
    assert!(rt; cause_of(alloc, &quits, heard(alloc)?, other)? == MAY_NOT);
    let closes = module(alloc, b"c")?;
    let call = mismatch(Event::Calls(Call::Close { fd: 1 }));
    assert!(rt; cause_of(alloc, &closes, heard(alloc)?, call)? == MAY);
    let traps = module(alloc, b"!")?;
    let trap = mismatch(Event::Traps(Trap::Unreachable));
    assert!(rt; cause_of(alloc, &traps, heard(alloc)?, trap)? == MAY_NOT);
    Ok(())
}

#[test]
fn a_discard_by_order_is_a_cause(rt: HostRuntime) -> Result<(), Fail> {
    let alloc = rt.alloc();
    let good = module(alloc, b"new")?;
    let discard = ordered(alloc, forked(alloc)?, b"discard", Word::Discard)?;
    assert!(rt; cause_of(alloc, &good, discard, Cause::Order { n: 2 })? == MAY);
    let discard = ordered(alloc, forked(alloc)?, b"discard", Word::Discard)?;
    assert!(rt; cause_of(alloc, &good, discard, Cause::Order { n: 1 })? == MAY_NOT);
    assert!(rt; cause_of(alloc, &good, forked(alloc)?, Cause::Order { n: 2 })? == MAY_NOT);
    Ok(())
}

#[test]
fn want_of_memory_is_a_cause(rt: HostRuntime) -> Result<(), Fail> {
    let alloc = rt.alloc();
    let good = module(alloc, b"new")?;
    assert!(rt; cause_of(alloc, &good, heard(alloc)?, Cause::Memory)? == MAY);
    assert!(rt; cause_of(alloc, &good, staged(alloc)?, Cause::Memory)? == MAY_NOT);
    Ok(())
}

/// Whether the old version may be dropped for this cause, where the new one leads and has closed its output.
fn dropped_for(alloc: Global, cause: Cause) -> Result<Option<bool>, OutOfMemory> {
    let closed = called(promoted(alloc)?, Call::Close { fd: 1 })?;
    let entry = Entry::Mark(Mark::Dropped { cause });
    judged(alloc, Small::Begins, &module(alloc, b"c")?, closed, entry)
}

#[test]
fn the_old_version_is_dropped_for_its_own_failures(rt: HostRuntime) -> Result<(), Fail> {
    let alloc = rt.alloc();
    let differs = Cause::Mismatch {
        k: 0,
        want: Call::Close { fd: 1 },
        got: Event::Calls(Call::Read { fd: 0, cap: 4 }),
    };
    assert!(rt; dropped_for(alloc, differs)? == MAY);
    assert!(rt; dropped_for(alloc, trap_at(0, Trap::Unreachable))? == MAY_NOT);
    assert!(rt; dropped_for(alloc, Cause::Refused(BornFault::NoTransform))? == MAY_NOT);
    assert!(rt; dropped_for(alloc, bad_reverse())? == MAY_NOT);
    Ok(())
}

#[test]
fn no_memory_is_wanted_where_nothing_is_shown(rt: HostRuntime) -> Result<(), Fail> {
    let alloc = rt.alloc();
    let unborn = module(alloc, b"?")?;
    let trap = trap_at(0, Trap::Unreachable);
    assert!(rt; cause_of(alloc, &unborn, heard(alloc)?, trap).is_err());
    let point = mismatch(Event::Point);
    assert!(rt; cause_of(alloc, &unborn, heard(alloc)?, point)? == MAY_NOT);
    assert!(rt; cause_of(alloc, &unborn, heard(alloc)?, Cause::Order { n: 0 })? == MAY_NOT);
    assert!(rt; cause_of(alloc, &unborn, heard(alloc)?, Cause::Memory)? == MAY);
    let promote = Entry::Mark(Mark::Promote);
    let unasked = judged(alloc, Small::Begins, &unborn, heard(alloc)?, promote)?;
    assert!(rt; unasked == MAY_NOT);
    Ok(())
}

/// An accepted word.
fn accepted(word: Word, update: u32) -> OrderReply {
    OrderReply::Accepted { word, update }
}

#[test]
fn an_order_is_accepted_in_its_stage(rt: HostRuntime) -> Result<(), Fail> {
    let alloc = rt.alloc();
    let update = b"update m f r";
    let none = Vec::new(alloc);
    assert!(rt; answer_at(alloc, none, update, accepted(Word::Update, 1))? == MAY);
    let none = Vec::new(alloc);
    assert!(rt; answer_at(alloc, none, update, accepted(Word::Update, 2))? == MAY_NOT);
    let beside = forked(alloc)?;
    assert!(rt; answer_at(alloc, beside, b"discard", accepted(Word::Discard, 0))? == MAY);
    let none = Vec::new(alloc);
    assert!(rt; answer_at(alloc, none, b"discard", accepted(Word::Discard, 0))? == MAY_NOT);
    Ok(())
}

#[test]
fn no_rules_are_the_file_of_no_rules(rt: HostRuntime) -> Result<(), Fail> {
    let alloc = rt.alloc();
    let entry = order(alloc, b"update m none r", Word::Update, 1)?;
    let plain = files(alloc, b"new", NO_RULES, BAD_RULES)?;
    assert!(rt; judged(alloc, Small::Begins, &plain, Vec::new(alloc), entry)? == MAY);
    let entry = order(alloc, b"update m none r", Word::Update, 1)?;
    let other = files(alloc, b"new", BAD_RULES, NO_RULES)?;
    assert!(rt; judged(alloc, Small::Begins, &other, Vec::new(alloc), entry)? == MAY_NOT);
    Ok(())
}

/// The answer to `status`, where no follower was given up yet.
fn told(stage: Stage, update: u32) -> OrderReply {
    OrderReply::Told {
        stage,
        update,
        last: Last::Never,
    }
}

#[test]
fn the_status_is_told(rt: HostRuntime) -> Result<(), Fail> {
    let alloc = rt.alloc();
    let none = Vec::new(alloc);
    assert!(rt; answer_at(alloc, none, b"status", told(Stage::OldAlone, 0))? == MAY);
    let beside = forked(alloc)?;
    assert!(rt; answer_at(alloc, beside, b"status", told(Stage::OldLeads, 1))? == MAY);
    let beside = forked(alloc)?;
    assert!(rt; answer_at(alloc, beside, b"status", told(Stage::OldAlone, 0))? == MAY_NOT);
    Ok(())
}

/// The line of so many letters.
fn letters(alloc: Global, count: usize) -> Result<Vec<u8>, OutOfMemory> {
    let mut line = Vec::new(alloc);
    for _ in 0..count {
        line.push(b'a')?;
    }
    Ok(line)
}

#[test]
fn a_long_line_is_told(rt: HostRuntime) -> Result<(), Fail> {
    let alloc = rt.alloc();
    let long = letters(alloc, 4097)?;
    let none = Vec::new(alloc);
    assert!(rt; answer_at(alloc, none, long.as_slice(), OrderReply::Long)? == MAY);
    let short = letters(alloc, 4096)?;
    let none = Vec::new(alloc);
    assert!(rt; answer_at(alloc, none, short.as_slice(), OrderReply::Long)? == MAY_NOT);
    Ok(())
}

#[test]
fn a_line_that_is_no_text_is_told(rt: HostRuntime) -> Result<(), Fail> {
    let alloc = rt.alloc();
    let none = Vec::new(alloc);
    assert!(rt; answer_at(alloc, none, b"\xFF", OrderReply::Utf8)? == MAY);
    let none = Vec::new(alloc);
    assert!(rt; answer_at(alloc, none, b"status", OrderReply::Utf8)? == MAY_NOT);
    Ok(())
}

/// The answer to a line that is no order.
fn unknown(alloc: Global, text: &[u8]) -> Result<OrderReply, OutOfMemory> {
    Ok(OrderReply::Unknown {
        text: Bytes::from_slice(alloc, text)?,
    })
}

#[test]
fn an_unknown_line_is_told(rt: HostRuntime) -> Result<(), Fail> {
    let alloc = rt.alloc();
    let none = Vec::new(alloc);
    assert!(rt; answer_at(alloc, none, b"go on", unknown(alloc, b"go on")?)? == MAY);
    let none = Vec::new(alloc);
    assert!(rt; answer_at(alloc, none, b"go on", unknown(alloc, b"go")?)? == MAY_NOT);
    let none = Vec::new(alloc);
    assert!(rt; answer_at(alloc, none, b"halt", unknown(alloc, b"halt")?)? == MAY_NOT);
    Ok(())
}

#[test]
fn an_order_of_another_stage_is_told(rt: HostRuntime) -> Result<(), Fail> {
    let alloc = rt.alloc();
    let alone = OrderReply::Stage {
        now: Stage::OldAlone,
    };
    assert!(rt; answer_at(alloc, Vec::new(alloc), b"promote", alone)? == MAY);
    let leads = OrderReply::Stage {
        now: Stage::OldLeads,
    };
    assert!(rt; answer_at(alloc, forked(alloc)?, b"promote", leads)? == MAY_NOT);
    Ok(())
}

#[test]
fn an_update_that_is_wanted_already_is_told(rt: HostRuntime) -> Result<(), Fail> {
    let alloc = rt.alloc();
    let line = b"update m f r";
    let busy = OrderReply::Busy { update: 1 };
    assert!(rt; answer_at(alloc, staged(alloc)?, line, busy)? == MAY);
    let busy = OrderReply::Busy { update: 1 };
    assert!(rt; answer_at(alloc, Vec::new(alloc), line, busy)? == MAY_NOT);
    Ok(())
}

/// Updates of which each had no memory for its copy, two entries each.
fn uncopied(alloc: Global, count: u32) -> Result<Vec<Entry>, OutOfMemory> {
    let mut entries = Vec::new(alloc);
    for update in 1..=count {
        entries.push(order(alloc, b"update m f r", Word::Update, update)?)?;
        entries.push(Entry::Mark(Mark::NoCopy { update }))?;
    }
    Ok(entries)
}

/// The files of so many updates.
fn many_files(alloc: Global, count: u32) -> Result<Updates, OutOfMemory> {
    let mut updates = Updates::new(alloc);
    for _ in 0..count {
        updates.reserve(1)?;
        updates.push(Update {
            module: Bytes::from_slice(alloc, b"new")?,
            forward: Bytes::from_slice(alloc, NO_RULES)?,
            reverse: Bytes::from_slice(alloc, NO_RULES)?,
        });
    }
    Ok(updates)
}

/// Whether an update may be answered so behind so many.
fn answer_behind(
    alloc: Global,
    count: u32,
    reply: OrderReply,
) -> Result<Option<bool>, OutOfMemory> {
    let updates = many_files(alloc, 65)?;
    let entry = Entry::Order {
        text: Bytes::from_slice(alloc, b"update m f r")?,
        reply,
    };
    judged(
        alloc,
        Small::Begins,
        &updates,
        uncopied(alloc, count)?,
        entry,
    )
}

#[test]
fn the_65th_update_is_refused(rt: HostRuntime) -> Result<(), Fail> {
    let alloc = rt.alloc();
    assert!(rt; answer_behind(alloc, 64, OrderReply::Many)? == MAY);
    assert!(rt; answer_behind(alloc, 64, accepted(Word::Update, 65))? == MAY_NOT);
    assert!(rt; answer_behind(alloc, 63, OrderReply::Many)? == MAY_NOT);
    Ok(())
}

/// A path of the line isn't there.
fn missing(alloc: Global, path: &[u8]) -> Result<OrderReply, OutOfMemory> {
    Ok(OrderReply::Missing {
        path: Bytes::from_slice(alloc, path)?,
    })
}

/// A path of the line couldn't be read.
fn failed(alloc: Global, path: &[u8]) -> Result<OrderReply, OutOfMemory> {
    Ok(OrderReply::Failed {
        path: Bytes::from_slice(alloc, path)?,
    })
}

#[test]
fn a_missing_file_is_one_of_the_line(rt: HostRuntime) -> Result<(), Fail> {
    let alloc = rt.alloc();
    let line = b"update m f none";
    let none = Vec::new(alloc);
    assert!(rt; answer_at(alloc, none, line, missing(alloc, b"m")?)? == MAY);
    let none = Vec::new(alloc);
    assert!(rt; answer_at(alloc, none, line, missing(alloc, b"x")?)? == MAY_NOT);
    let none = Vec::new(alloc);
    assert!(rt; answer_at(alloc, none, line, missing(alloc, b"none")?)? == MAY_NOT);
    Ok(())
}

#[test]
fn a_failed_file_is_one_of_the_line(rt: HostRuntime) -> Result<(), Fail> {
    let alloc = rt.alloc();
    let line = b"update m f none";
    let none = Vec::new(alloc);
    assert!(rt; answer_at(alloc, none, line, failed(alloc, b"f")?)? == MAY);
    let none = Vec::new(alloc);
    assert!(rt; answer_at(alloc, none, line, failed(alloc, b"r")?)? == MAY_NOT);
    Ok(())
}
