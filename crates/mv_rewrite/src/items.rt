//! Lists of calls with their replies.
ghost use Rattle.std.specs.Prelude.{◌≡◌};

use mv_calls::Item;
use std::marker::Model;

/// A list of calls with their replies, which contracts see as a list.
#[derive(Debug, Drop)]
pub struct Items {
    items: Vec<Item>,
}

impl Model for Items {
    ghost use Rattle.std.specs.Prelude.{List};
    ghost use Rattle.mv_calls.specs.declared.calls.Call.{Call};
    ghost use Rattle.mv_calls.specs.declared.calls.Reply.{Reply};

    ghost Value = { List (Call × Reply) };

    ghost view = { λ i. i.items.items };
}

impl Items {
    /// The items of the vector, in its place in memory.
    pub fn from_vec(items: Vec<Item>) -> Items
        ensures { result ≡ items.items }
    {
        Items { items }
    }

    /// The items as a vector, in their place in memory.
    pub fn into_vec(self) -> Vec<Item>
        ensures { result.items ≡ self }
    {
        let Items { items } = self;
        items
    }

    /// The items, to be looked at.
    pub fn slice(&self) -> &[Item]
        ensures { result.now ≡ self.now }
    {
        self.items.as_slice()
    }
}
