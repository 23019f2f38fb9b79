//! Lists of a log, and answers that need no file. The laws are called at a version of the guest by the tests of mv_audit.

use super::*;
use mv_calls::{Bytes, Texts};
use mv_orders::{Last, Order, OrderReply, Stage, Word};
use std::test::*;

#[test]
fn a_log_begins_with_the_places_of_three_entries(rt: HostRuntime) -> Result<(), Fail> {
    let alloc = rt.alloc();
    let start = Start {
        module: Bytes::from_slice(alloc, b"old")?,
        args: Texts::from_vec(Vec::new(alloc)),
    };
    let mut log = Log::make(alloc, start)?;
    log.entries.push(Entry::Point);
    log.updates.reserve(1)?;
    log.updates.push(Update {
        module: Bytes::from_slice(alloc, b"new")?,
        forward: Bytes::from_slice(alloc, b"mvrules 1\n")?,
        reverse: Bytes::from_slice(alloc, b"mvrules 1\n")?,
    });
    assert!(rt; log.start.module.slice() == b"old".as_slice());
    assert!(rt; matches!(log.entries.slice(), [Entry::Point]));
    assert!(rt; log.updates.slice()[0].module.slice() == b"new".as_slice());
    assert!(rt; Log::empty(alloc).entries.into_vec().is_empty());
    Ok(())
}

/// Whether the answer is that the stage is another.
fn is_stage(reply: Option<OrderReply>, stage: Stage) -> bool {
    matches!(reply, Some(OrderReply::Stage { now }) if now == stage)
}

#[test]
fn orders_are_answered_by_the_stage(rt: HostRuntime) -> Result<(), Fail> {
    let alone = Status::new();
    assert!(rt; is_stage(alone.early_reply(&Order::Promote), Stage::OldAlone));
    assert!(rt;
        matches!(
            alone.early_reply(&Order::Status),
            Some(OrderReply::Told {
                stage: Stage::OldAlone,
                update: 0,
                last: Last::Never,
            })
        )
    );
    let led = alone.after(&Entry::Mark(Mark::Fork { update: 1 }));
    assert!(rt; is_stage(led.early_reply(&Order::Finish), Stage::OldLeads));
    assert!(rt;
        matches!(
            led.early_reply(&Order::Promote),
            Some(OrderReply::Accepted {
                word: Word::Promote,
                update: 0,
            })
        )
    );
    Ok(())
}
