//! What the leader's half does.
ghost use Rattle.std.specs.Prelude.{◌≡◌, ◌+◌, ◌^◌, ◌<◌, ◌≤◌, List, [], ◌∷◌, ◌++◌, length, true, false};
ghost use Rattle.mv_feed.specs.declared.msg.Msg.{Msg};
ghost use Rattle.mv_ring.specs.Halves.{put_list, known_taken, behind_of, looks_in, ring_of_in, in_stands, in_grows, in_follows, in_looked, in_open, in_size, note_list, ring_of_note};
ghost use Rattle.mv_feed.specs.Feeds.{BeginsWith};
ghost use Rattle.mv_ring.specs.Laws.{in_ordered, in_nearby, in_sized, in_grown_none, in_grown_whole, in_still, in_later};

use super::RingIn;
use crate::board::{PUT, TAKEN};
use crate::plays::{Glance, Meet, Publish, Seek};
use crate::ring_out::RingNote;
use mv_feed::{FeedIn, Msg};

impl<V: Drop> FeedIn<V> for RingIn<V> {
    ghost stands = { in_stands };

    ghost bound = { in_size };

    ghost behind = { behind_of };

    ghost grows = { in_grows };

    ghost follows = { in_follows };

    ghost looked = { in_looked };

    ghost is_open = { in_open };

    fn capacity(&self) -> usize {
        self.size
    }

    fn room(&mut self) -> bool
        ensures full { result ≡ false → (behind_of self.new ≡ in_size self.new) × in_looked self.old self.new }
        ensures open { result ≡ true → (behind_of self.new < in_size self.new) × in_open self.new }
        ensures lists { (put taken : List (Msg V)) → in_stands self.old put taken → (more : List (Msg V)) × in_grows taken more × in_stands self.new put more }
        ensures same { in_follows self.old self.new × (in_size self.new ≡ in_size self.old) × (behind_of self.new ≤ behind_of self.old) }
        ensures exact { (put_list self.new ≡ put_list self.old) × (looks_in self.new ≡ looks_in self.old + 1) }
    {
        if self.is_ready {
            self.board.shared.load::<Glance>(&mut self.place, TAKEN);
            return true;
        }
        let taken = self.board.shared.load::<Seek>(&mut self.place, TAKEN);
        self.is_ready = self.put - taken < self.size as u64;
        self.is_ready
    }

    fn put(&mut self, msg: Msg<V>)
        requires open { in_open self.old }
        requires count { (put taken : List (Msg V)) × in_stands self.old put taken × (length put < 2 ^ 63) }
        ensures lists { (put taken : List (Msg V)) → in_stands self.old put taken → in_stands self.new (put ++ msg ∷ []) taken }
        ensures behind { behind_of self.new ≡ behind_of self.old + 1 }
        ensures same { in_follows self.old self.new × (in_size self.new ≡ in_size self.old) }
        ensures exact { (put_list self.new ≡ put_list self.old ++ msg ∷ []) × (looks_in self.new ≡ looks_in self.old) }
    {
        let slot = (self.put % self.size as u64) as usize;
        drop(self.board.shared.exchange(&mut self.place, slot, Some(msg)));
        self.put += 1;
        self.board
            .shared
            .store::<Publish>(&mut self.place, PUT, self.put);
        self.is_ready = false;
    }

    ghost in_order = { in_ordered };

    ghost near = { in_nearby };

    ghost sized = { in_sized };

    ghost grown = { λ a b h. h };

    ghost grown_none = { in_grown_none };

    ghost grown_whole = { in_grown_whole };

    ghost still = { in_still };

    ghost later = { in_later };
}

impl<V: Drop> RingIn<V> {
    /// Learns that the messages of the note, which is of this ring, were taken: they are a prefix of what was
    /// put, and `behind` is at most the number of messages after them.
    pub fn meet(&mut self, note: RingNote<V>)
        requires { ring_of_note note ≡ ring_of_in self.old }
        ensures met { BeginsWith (put_list self.new) (note_list note) × (behind_of self.new + length (note_list note) ≤ length (put_list self.new)) }
        ensures lists { (put taken : List (Msg V)) → in_stands self.old put taken → (more : List (Msg V)) × in_grows taken more × in_stands self.new put more }
        ensures same { in_follows self.old self.new × (put_list self.new ≡ put_list self.old) × (in_size self.new ≡ in_size self.old) × (behind_of self.new ≤ behind_of self.old) × (in_open self.old → in_open self.new) × (looks_in self.new ≡ looks_in self.old + 1) }
    {
        let RingNote { place } = note;
        let shared = &self.board.shared;
        shared.join_seat::<Meet>(&mut self.place, place);
        shared.load::<Glance>(&mut self.place, TAKEN);
    }
}
