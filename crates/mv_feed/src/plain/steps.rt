//! What the plain feed does.
ghost use Rattle.std.specs.Prelude.{◌≡◌, ◌+◌, ◌^◌, ◌<◌, ◌≤◌, List, [], ◌∷◌, ◌++◌, length, true, false, MatchOption, ◌↔◌, IfOk};
ghost use Rattle.mv_feed.specs.declared.msg.Msg.{Msg};
ghost use Rattle.mv_feed.specs.Plain.{kept_list, plain_bound, plain_behind, plain_stands, plain_grows, plain_follows, plain_looked, plain_open};
ghost use Rattle.mv_feed.specs.PlainLaws.{plain_ordered, plain_nearby, plain_grown, plain_grown_none, plain_grown_whole, plain_still, plain_later};

use super::PlainFeed;
use crate::feed::{FeedIn, FeedOut};
use crate::msg::Msg;
use circular_buffer::HeapCircularBuffer;
use mv_calls::OutOfMemory;
use std::alloc::Global;

impl<V: Drop> PlainFeed<V> {
    /// An empty feed with place for `capacity` messages, from 4 to 4,096.
    pub fn make(alloc: Global, capacity: usize) -> Result<PlainFeed<V>, OutOfMemory>
        requires { (4 ≤ capacity) × (capacity ≤ 4096) }
        ensures { IfOk result (λ f. (kept_list f ≡ []) × (plain_bound f ≡ capacity)) }
    {
        let kept = HeapCircularBuffer::with_capacity(alloc, capacity)?;
        Ok(PlainFeed { kept })
    }
}

impl<V: Drop> FeedIn<V> for PlainFeed<V> {
    ghost stands = { plain_stands };

    ghost bound = { plain_bound };

    ghost behind = { plain_behind };

    ghost grows = { plain_grows };

    ghost follows = { plain_follows };

    ghost looked = { plain_looked };

    ghost is_open = { plain_open };

    fn capacity(&self) -> usize {
        self.kept.capacity()
    }

    fn room(&mut self) -> bool
        ensures full { result ≡ false → (plain_behind self.new ≡ plain_bound self.new) × plain_looked self.old self.new }
        ensures open { result ≡ true → (plain_behind self.new < plain_bound self.new) × plain_open self.new }
        ensures lists { (put taken : List (Msg V)) → plain_stands self.old put taken → (more : List (Msg V)) × plain_grows taken more × plain_stands self.new put more }
        ensures same { plain_follows self.old self.new × (plain_bound self.new ≡ plain_bound self.old) × (plain_behind self.new ≤ plain_behind self.old) }
        ensures exact { (result ≡ true ↔ plain_behind self.old < plain_bound self.old) × (kept_list self.new ≡ kept_list self.old) }
    {
        self.kept.len() < self.kept.capacity()
    }

    fn put(&mut self, msg: Msg<V>)
        requires open { plain_open self.old }
        requires count { (put taken : List (Msg V)) × plain_stands self.old put taken × (length put < 2 ^ 63) }
        ensures lists { (put taken : List (Msg V)) → plain_stands self.old put taken → plain_stands self.new (put ++ msg ∷ []) taken }
        ensures behind { plain_behind self.new ≡ plain_behind self.old + 1 }
        ensures same { plain_follows self.old self.new × (plain_bound self.new ≡ plain_bound self.old) }
        ensures exact { kept_list self.new ≡ kept_list self.old ++ msg ∷ [] }
    {
        drop(self.kept.push_back(msg));
    }

    ghost in_order = { plain_ordered };

    ghost near = { plain_nearby };

    ghost sized = { λ f. f.sized };

    ghost grown = { plain_grown };

    ghost grown_none = { plain_grown_none };

    ghost grown_whole = { plain_grown_whole };

    ghost still = { plain_still };

    ghost later = { plain_later };
}

impl<V: Drop> FeedOut<V> for PlainFeed<V> {
    ghost stands = { plain_stands };

    ghost ahead = { plain_behind };

    ghost follows = { plain_follows };

    ghost looked = { plain_looked };

    fn take(&mut self) -> Option<Msg<V>>
        ensures none { MatchOption result ((plain_behind self.new ≡ 0) × plain_looked self.old self.new) (λ _. Unit {0}) }
        ensures lists { (put taken : List (Msg V)) → plain_stands self.old put taken → MatchOption result (plain_stands self.new put taken) (λ m. plain_stands self.new put (taken ++ m ∷ [])) }
        ensures same { plain_follows self.old self.new }
        ensures exact { MatchOption result ((kept_list self.old ≡ []) × (kept_list self.new ≡ [])) (λ m. kept_list self.old ≡ m ∷ kept_list self.new) }
    {
        self.kept.pop_front()
    }

    ghost still = { plain_still };

    ghost later = { plain_later };
}
