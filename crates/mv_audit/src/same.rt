//! Whether two values of a log are equal.
ghost use Rattle.std.specs.Prelude.{◌≡◌, ◌↔◌, IsTrue};

use mv_calls::{Trap, same_call};
use mv_history::Why;
use mv_orders::{Last, OrderReply, Stage, Word};
use mv_rules::RuleFault;
use mv_syntax::BornFault;
use mv_version::Event;

/// Whether the two byte lists are equal.
pub(crate) fn same_bytes(one: &[u8], other: &[u8]) -> bool
    ensures { IsTrue result ↔ (one.now ≡ other.now) }
{
    one == other
}

/// Whether the two traps are equal.
pub(crate) fn same_trap(one: Trap, other: Trap) -> bool
    ensures { IsTrue result ↔ (one ≡ other) }
{
    one == other
}

/// Whether the two faults of a rules file are equal.
pub(crate) fn same_rule_fault(one: RuleFault, other: RuleFault) -> bool
    ensures { IsTrue result ↔ (one ≡ other) }
{
    one == other
}

/// Whether the two faults of a birth are equal.
pub(crate) fn same_born_fault(one: BornFault, other: BornFault) -> bool
    ensures { IsTrue result ↔ (one ≡ other) }
{
    one == other
}

/// Whether the two reasons of a hand-over are equal.
pub(crate) fn same_why(one: Why, other: Why) -> bool
    ensures { IsTrue result ↔ (one ≡ other) }
{
    one == other
}

/// Whether the two stages are equal.
pub(crate) fn same_stage(one: Stage, other: Stage) -> bool
    ensures { IsTrue result ↔ (one ≡ other) }
{
    one == other
}

/// Whether the two words are equal.
pub(crate) fn same_word(one: Word, other: Word) -> bool
    ensures { IsTrue result ↔ (one ≡ other) }
{
    one == other
}

/// Whether the two reasons are equal.
pub(crate) fn same_last(one: Last, other: Last) -> bool
    ensures { IsTrue result ↔ (one ≡ other) }
{
    one == other
}

/// Whether the two events are equal.
pub(crate) fn same_event(one: &Event, other: &Event) -> bool
    ensures { IsTrue result ↔ (one.now ≡ other.now) }
{
    match (one, other) {
        (Event::Calls(call), Event::Calls(another)) => same_call(call, another),
        (Event::Point, Event::Point) => true,
        (Event::Ends(code), Event::Ends(another)) => *code == *another,
        (Event::Traps(trap), Event::Traps(another)) => same_trap(*trap, *another),
        _ => false,
    }
}

/// Whether the two answers to orders are equal.
pub(crate) fn same_reply(one: &OrderReply, other: &OrderReply) -> bool
    ensures { IsTrue result ↔ (one.now ≡ other.now) }
{
    match (one, other) {
        (
            OrderReply::Accepted { word, update },
            OrderReply::Accepted {
                word: another,
                update: number,
            },
        ) => same_word(*word, *another) && *update == *number,
        (
            OrderReply::Told {
                stage,
                update,
                last,
            },
            OrderReply::Told {
                stage: another,
                update: number,
                last: reason,
            },
        ) => same_stage(*stage, *another) && *update == *number && same_last(*last, *reason),
        (OrderReply::Long, OrderReply::Long) => true,
        (OrderReply::Utf8, OrderReply::Utf8) => true,
        (OrderReply::Unknown { text }, OrderReply::Unknown { text: another }) => {
            same_bytes(text.slice(), another.slice())
        }
        (OrderReply::Stage { now }, OrderReply::Stage { now: another }) => {
            same_stage(*now, *another)
        }
        (OrderReply::Busy { update }, OrderReply::Busy { update: number }) => *update == *number,
        (OrderReply::Many, OrderReply::Many) => true,
        (OrderReply::Missing { path }, OrderReply::Missing { path: another }) => {
            same_bytes(path.slice(), another.slice())
        }
        (OrderReply::Failed { path }, OrderReply::Failed { path: another }) => {
            same_bytes(path.slice(), another.slice())
        }
        _ => false,
    }
}
