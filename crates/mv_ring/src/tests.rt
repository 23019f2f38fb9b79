ghost use Rattle.std.specs.Prelude.{◌≡◌, ◌^◌, ◌<◌, ◌+◌, ◌≤◌, List, [], ℕ, length};
ghost use Rattle.mv_feed.specs.declared.msg.Msg.{Msg};
ghost use Rattle.mv_ring.specs.Halves.{put_list, ring_of_in, ring_of_out, ring_of_note};
ghost use Rattle.mv_ring.specs.Short.{IsShort};

use crate::{RingIn, RingNote, RingOut, ring};
use mv_feed::{FeedIn, FeedOut, Msg, PlainFeed};
use std::sync::{Arc, Wait};
use std::test::Fail;
use std::thread::{Threads, join, yield_now};

/// The number of a message of these tests.
fn number(msg: Msg<u64>) -> u64 {
    match msg {
        Msg::Hand { n } => n,
        Msg::Stand { guest } => guest,
        Msg::Heard { .. } | Msg::Fork { .. } => u64::MAX,
    }
}

fn offer(feed: &mut RingIn<u64>, n: u64) -> bool
    requires { length (put_list feed.old) < 2 ^ 63 }
    ensures { (length (put_list feed.new) ≤ length (put_list feed.old) + 1) × (ring_of_in feed.new ≡ ring_of_in feed.old) }
{
    if feed.room() {
        feed.put(Msg::Hand { n });
        true
    } else {
        false
    }
}

fn next(feed: &mut RingOut<u64>) -> Option<u64>
    ensures { ring_of_out feed.new ≡ ring_of_out feed.old }
{
    Some(number(feed.take()?))
}

#[test]
fn a_full_ring_has_no_room_until_one_is_taken(rt: HostRuntime) -> Result<(), Fail> {
    let (mut feed, mut out) = ring::<u64>(rt.alloc(), 4)?;
    assert!(rt;
        offer(&mut feed, 1) && offer(&mut feed, 2) && offer(&mut feed, 3) && offer(&mut feed, 4)
    );
    assert!(rt; !feed.room());
    assert!(rt; next(&mut out) == Some(1));
    assert!(rt; offer(&mut feed, 5));
    assert!(rt; next(&mut out) == Some(2) && next(&mut out) == Some(3));
    assert!(rt; next(&mut out) == Some(4) && next(&mut out) == Some(5));
    assert!(rt; next(&mut out).is_none());
    Ok(())
}

#[test]
fn two_notes_are_met(rt: HostRuntime) -> Result<(), Fail> {
    let (mut feed, mut out) = ring::<u64>(rt.alloc(), 4)?;
    assert!(rt;
        offer(&mut feed, 1) && offer(&mut feed, 2) && offer(&mut feed, 3) && offer(&mut feed, 4)
    );
    assert!(rt; next(&mut out) == Some(1));
    let first = out.note();
    let second = out.note();
    feed.meet(first);
    feed.meet(second);
    assert!(rt; feed.room());
    Ok(())
}

fn offer_to<I: FeedIn<u64>>(feed: &mut I, n: u64) -> bool
    requires { (put taken : List (Msg ℕ)) × I.stands feed.old put taken × (length put < 2 ^ 63) }
    ensures { (put taken : List (Msg ℕ)) → I.stands feed.old put taken → (put' taken' : List (Msg ℕ)) × I.stands feed.new put' taken' × (length put' ≤ length put + 1) }
{
    if feed.room() {
        feed.put(Msg::Hand { n });
        true
    } else {
        false
    }
}

fn next_from<O: FeedOut<u64>>(feed: &mut O) -> Option<u64>
    ensures { (put taken : List (Msg ℕ)) → O.stands feed.old put taken → (taken' : List (Msg ℕ)) × O.stands feed.new put taken' }
{
    Some(number(feed.take()?))
}

fn step_both(
    feed: &mut RingIn<u64>,
    out: &mut RingOut<u64>,
    plain: &mut PlainFeed<u64>,
    i: u64,
) -> bool
    requires { (i < 1000) × IsShort feed.old plain.old i }
    ensures { IsShort feed.new plain.new (i + 1) }
{
    if i * i % 7 < 3 {
        return offer_to(feed, i) == offer_to(plain, i);
    }
    next_from(out) == next_from(plain)
}

#[test]
fn both_feeds_answer_alike(rt: HostRuntime) -> Result<(), Fail> {
    let (mut feed, mut out) = ring::<u64>(rt.alloc(), 7)?;
    let mut plain = PlainFeed::<u64>::make(rt.alloc(), 7)?;
    for i in 0..1000 {
        assert!(rt; step_both(&mut feed, &mut out, &mut plain, i));
    }
    Ok(())
}

#[test]
fn what_is_left_is_dropped(rt: HostRuntime) -> Result<(), Fail> {
    let guest = Arc::new(rt.alloc(), 7u8)?;
    let (mut feed, out) = ring::<Arc<u8>>(rt.alloc(), 4)?;
    let other = Arc::try_clone(&guest)?;
    if feed.room() {
        feed.put(Msg::Stand { guest: other });
    }
    let other = Arc::try_clone(&guest)?;
    if feed.room() {
        feed.put(Msg::Stand { guest: other });
    }
    assert!(rt; Arc::strong_count(&guest) == 3);
    drop(out);
    drop(feed);
    assert!(rt; Arc::strong_count(&guest) == 1);
    Ok(())
}

/// Meets the note on one thread, and takes a message on another: halves and notes cross threads where
/// V does.
fn part<V: Drop + Send, R: Threads + Sync>(
    rt: &R,
    mut feed: RingIn<V>,
    mut out: RingOut<V>,
    note: RingNote<V>,
) -> bool
    requires { ring_of_note note ≡ ring_of_in feed }
{
    let (_, nothing) = join(rt, move || feed.meet(note), move || out.take().is_none());
    nothing
}

#[test]
fn halves_and_notes_cross_threads(rt: HostRuntime) -> Result<(), Fail> {
    let (feed, mut out) = ring::<u64>(rt.alloc(), 4)?;
    let note = out.note();
    assert!(rt; part(&rt, feed, out, note));
    Ok(())
}

/// Puts the number once there is room.
fn send<R: Wait>(rt: &R, feed: &mut RingIn<u64>, n: u64)
    requires { (length (put_list feed.old) ≤ n) × (n < 2 ^ 62) }
    ensures { length (put_list feed.new) ≤ n + 1 }
{
    for _ in rt.forever() {
        if feed.room() {
            feed.put(Msg::Hand { n });
            return;
        }
        yield_now();
    }
    unreachable!()
}

/// The number of the next message, once there is one.
fn receive<R: Wait>(rt: &R, out: &mut RingOut<u64>) -> u64 {
    for _ in rt.forever() {
        if let Some(msg) = out.take() {
            return number(msg);
        }
        yield_now();
    }
    unreachable!()
}

fn send_all<R: Wait>(rt: &R, mut feed: RingIn<u64>, last: u64)
    requires { (put_list feed ≡ []) × (last < 2 ^ 62) }
{
    for n in 0..last {
        send(rt, &mut feed, n);
    }
}

/// Whether the numbers below `last` come in order, and nothing after them.
fn receive_all<R: Wait>(rt: &R, mut out: RingOut<u64>, last: u64) -> bool {
    for n in 0..last {
        if receive(rt, &mut out) != n {
            return false;
        }
    }
    out.take().is_none()
}

fn pass_all<R: Threads + Wait + Sync>(rt: &R, feed: RingIn<u64>, out: RingOut<u64>) -> bool
    requires { put_list feed ≡ [] }
{
    let (_, in_order) = join(
        rt,
        move || send_all(rt, feed, 100_000),
        move || receive_all(rt, out, 100_000),
    );
    in_order
}

#[test]
fn two_threads_pass_all_messages_in_order(rt: HostRuntime) -> Result<(), Fail> {
    let (feed, out) = ring::<u64>(rt.alloc(), 4)?;
    assert!(rt; pass_all(&rt, feed, out));
    let (feed, out) = ring::<u64>(rt.alloc(), 256)?;
    assert!(rt; pass_all(&rt, feed, out));
    Ok(())
}
