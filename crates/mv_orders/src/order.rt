//! What an operator may order.

ghost use Rattle.std.specs.Prelude.{◌≡◌, ◌∷◌, [], List, ℕ, Result, Ok, Err, map, IfOk, IfSome, IfNone, ◌==◌};
ghost use Rattle.std.specs.List.{slice_split};
ghost use Rattle.mv_orders.specs.declared.order.Order.{Order};
ghost use Rattle.mv_orders.specs.declared.order.OrderFault.{OrderFault};
ghost use Rattle.mv_calls.specs.Or.{IfFault};
ghost use Rattle.mv_orders.specs.Answers.{AllowsAnswer};
ghost use Rattle.mv_orders.specs.Order.{HasTextPaths, Reads, ReadsWords, order_words};

use mv_calls::{Bytes, Or, OutOfMemory};
use std::alloc::Global;

/// The most bytes of an order line, without its line end.
const LINE_LIMIT: usize = 4096;

/// An order of the operator (docs/FORMATS.md, "Orders").
#[derive(Drop, Debug)]
pub enum Order {
    /// Stage a new version at the next update point: the path of its module, and the paths of the rules
    /// that turn the old version's calls into the new one's and back, or `none` for no rules.
    Update {
        module: Bytes,
        forward: Bytes,
        reverse: Bytes,
    },
    /// Let the new version lead from the next update point on.
    Promote,
    /// Give the new version up before it leads.
    Discard,
    /// Let the old version go: the new one stays.
    Finish,
    /// Let the old version lead again from the next update point on.
    Back,
    /// End the run.
    Halt,
    /// Tell the stage, the update and why the last follower was dropped.
    Status,
}

/// Why a line is no order, the first reason in this order.
#[derive(Clone, Copy, PartialEq, Eq, Debug)]
pub enum OrderFault {
    /// It has more than 4,096 bytes without its line end.
    Long,
    /// It isn't UTF-8.
    Utf8,
    /// It isn't the words of an order with one space between them.
    Unknown,
}

/// The order that a line gives, which comes without its line end. Of the reasons why it gives none, the
/// first in the order of OrderFault is answered. The paths of an order are UTF-8.
pub fn read_order(alloc: Global, line: &[u8]) -> Result<Order, Or<OrderFault>>
    ensures order { IfOk result (λ order. Reads line.now (Ok order)) }
    ensures refused { IfFault result (λ fault. Reads line.now (Err fault)) }
    ensures paths { IfOk result (λ order. HasTextPaths order) }
{
    if line.len() > LINE_LIMIT {
        return Err(Or::Fault(OrderFault::Long));
    }
    if std::str::from_utf8(line).is_err() {
        return Err(Or::Fault(OrderFault::Utf8));
    }
    let words = words_of(alloc, line)?;
    order_from_words(alloc, words.as_slice())
}

/// What stands between spaces.
fn words_of(alloc: Global, line: &[u8]) -> Result<Vec<&[u8]>, OutOfMemory>
    ensures { IfOk result (λ v. map (λ w. w.now) v.items ≡ slice_split (λ b. b == 32) line.now) }
{
    let words = line.split(|b| *b == b' ').collect(alloc)?;
    Ok(words)
}

/// The order of some words.
fn order_from_words(alloc: Global, words: &[&[u8]]) -> Result<Order, Or<OrderFault>>
    ensures { AllowsAnswer (ReadsWords (map (λ w. w.now) words.now)) result }
{
    if words.len() == 1 {
        simple_order(words[0]).ok_or(Or::Fault(OrderFault::Unknown))
    } else if words.len() == 4 {
        update_order(alloc, words[0], words[1], words[2], words[3])
    } else {
        Err(Or::Fault(OrderFault::Unknown))
    }
}

/// The order of four words.
fn update_order(
    alloc: Global,
    name: &[u8],
    module_path: &[u8],
    forward: &[u8],
    reverse: &[u8],
) -> Result<Order, Or<OrderFault>>
    ensures { AllowsAnswer (ReadsWords (name.now ∷ module_path.now ∷ forward.now ∷ reverse.now ∷ [])) result }
{
    if name != b"update".as_slice() {
        return Err(Or::Fault(OrderFault::Unknown));
    }
    if module_path.is_empty() || forward.is_empty() || reverse.is_empty() {
        return Err(Or::Fault(OrderFault::Unknown));
    }
    Ok(Order::Update {
        module: Bytes::from_slice(alloc, module_path)?,
        forward: Bytes::from_slice(alloc, forward)?,
        reverse: Bytes::from_slice(alloc, reverse)?,
    })
}

/// The order of one word.
fn simple_order(word: &[u8]) -> Option<Order>
    ensures some { IfSome result (λ order. word.now ∷ [] ≡ order_words order) }
    ensures none { IfNone result ((order : Order) → word.now ∷ [] ≡ order_words order → ⊥) }
{
    if word == b"promote".as_slice() {
        Some(Order::Promote)
    } else if word == b"discard".as_slice() {
        Some(Order::Discard)
    } else if word == b"finish".as_slice() {
        Some(Order::Finish)
    } else if word == b"back".as_slice() {
        Some(Order::Back)
    } else if word == b"halt".as_slice() {
        Some(Order::Halt)
    } else if word == b"status".as_slice() {
        Some(Order::Status)
    } else {
        None
    }
}

/// A line is read in one way: a law about the definition, which every reader of lines stands on.
pub fn one_reading()
    ensures { (line : List ℕ) (a b : Result Order OrderFault) → Reads line a → Reads line b → a ≡ b }
{}
