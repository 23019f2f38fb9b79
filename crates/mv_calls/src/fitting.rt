//! Which calls of a new version a call of the old one answers.
ghost use Rattle.std.specs.Prelude.{◌≡◌, ◌↔◌, ◌⊎◌, IsTrue};
ghost use Rattle.mv_calls.specs.Suits.{suits_of};
ghost use Rattle.mv_calls.specs.Fits.{fits_of, is_same_call, are_same_subs, is_within, reads_enough};

use crate::calls::{Call, Reply};
use crate::subs::Sub;

/// Whether the answer to `want` may be given for the call `mine`: the two are equal, or both read one
/// descriptor and the answer is an error number or has at most the bytes that `mine` asks for.
pub fn fits(mine: &Call, want: &Call, reply: &Reply) -> bool
    ensures fits { result ≡ fits_of mine.now want.now reply.now }
    ensures means { IsTrue result ↔ ((mine.now ≡ want.now) ⊎ IsTrue (reads_enough mine.now want.now reply.now)) }
    ensures suits { IsTrue result → IsTrue (suits_of want.now reply.now) → IsTrue (suits_of mine.now reply.now) }
{
    same_call(mine, want) || enough(mine, want, reply)
}

/// Whether both read one descriptor, and the answer is no longer than `mine` asks for.
fn enough(mine: &Call, want: &Call, reply: &Reply) -> bool
    ensures { result ≡ reads_enough mine.now want.now reply.now }
{
    match (mine, want) {
        (Call::Read { fd, cap }, Call::Read { fd: other, .. }) => {
            *fd == *other && within(reply, *cap)
        }
        _ => false,
    }
}

/// Whether the reply is an error number, or has at most `cap` bytes.
fn within(reply: &Reply, cap: u32) -> bool
    ensures { result ≡ is_within cap reply.now }
{
    match reply {
        Reply::Errno(_) => true,
        Reply::Bytes(bytes) => bytes.slice().len() <= cap as usize,
        _ => false,
    }
}

/// Whether the two calls are equal.
#[tactic(auto, using(crate::proofs::FitsLaws::same_means_at))]
pub fn same_call(mine: &Call, want: &Call) -> bool
    ensures same { result ≡ is_same_call mine.now want.now }
    ensures means { IsTrue result ↔ (mine.now ≡ want.now) }
{
    is_equal(mine, want)
}

/// Whether the two calls are equal, by their kinds.
fn is_equal(mine: &Call, want: &Call) -> bool
    ensures { result ≡ is_same_call mine.now want.now }
{
    match (mine, want) {
        (Call::Clock { id }, Call::Clock { id: other }) => *id == *other,
        (Call::Random { len }, Call::Random { len: other }) => *len == *other,
        (
            Call::Read { fd, cap },
            Call::Read {
                fd: other,
                cap: asked,
            },
        ) => { *fd == *other && *cap == *asked }
        (
            Call::Write { fd, bytes },
            Call::Write {
                fd: other,
                bytes: offered,
            },
        ) => { *fd == *other && bytes.slice() == offered.slice() }
        (Call::Close { fd }, Call::Close { fd: other }) => *fd == *other,
        (Call::FdStat { fd }, Call::FdStat { fd: other }) => *fd == *other,
        (Call::Yield, Call::Yield) => true,
        (Call::Poll { subs }, Call::Poll { subs: others }) => {
            same_subs(subs.slice(), others.slice())
        }
        (
            Call::Accept { fd, flags },
            Call::Accept {
                fd: other,
                flags: asked,
            },
        ) => { *fd == *other && *flags == *asked }
        (
            Call::Shutdown { fd, how },
            Call::Shutdown {
                fd: other,
                how: asked,
            },
        ) => { *fd == *other && *how == *asked }
        _ => false,
    }
}

/// Whether the two lists are equal.
fn same_subs(mine: &[Sub], want: &[Sub]) -> bool
    ensures { result ≡ are_same_subs mine.now want.now }
{
    mine == want
}
