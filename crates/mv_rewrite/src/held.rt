//! Places for items.
ghost use Rattle.std.specs.Prelude.{◌≡◌, IfOk};

use mv_calls::{Call, Item, OutOfMemory, Reply, copy_item};
use std::alloc::Global;
use std::marker::Model;

/// An item in a place of its own. A place that isn't used has an item as good as any.
#[derive(Drop)]
pub struct Held {
    item: Item,
}

impl Model for Held {
    ghost use Rattle.mv_calls.specs.declared.calls.Call.{Call};
    ghost use Rattle.mv_calls.specs.declared.calls.Reply.{Reply};

    ghost Value = { Call × Reply };

    ghost view = { λ h. h.item };
}

impl Default for Held {
    fn default() -> Held {
        Held {
            item: Item {
                call: Call::Yield,
                reply: Reply::Done,
            },
        }
    }
}

impl Held {
    pub fn new(item: Item) -> Held
        ensures { result ≡ item }
    {
        Held { item }
    }

    pub fn item(&self) -> &Item
        ensures { result.now ≡ self.now }
    {
        &self.item
    }

    pub fn into_item(self) -> Item
        ensures { result ≡ self }
    {
        let Held { item } = self;
        item
    }
}

/// Equal items in places of their own.
pub fn hold_all(alloc: Global, items: &[Item]) -> Result<Vec<Held>, OutOfMemory>
    ensures { IfOk result (λ held. held.items ≡ items.now) }
{
    let mut held = Vec::new(alloc);
    for item in items {
        held.push(Held::new(copy_item(alloc, item)?))?;
    }
    Ok(held)
}
