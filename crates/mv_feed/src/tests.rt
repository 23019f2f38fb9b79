use crate::{FeedIn, FeedOut, Msg, PlainFeed};
use mv_calls::{Bytes, Call, Item, Reply};
use std::sync::Arc;
use std::test::Fail;

/// Each kind of message comes out as it was put, and what is left is dropped.
#[test]
fn messages_come_in_order_and_the_rest_is_dropped(rt: HostRuntime) -> Result<(), Fail> {
    let alloc = rt.alloc();
    let guest = Arc::new(alloc, 7u8)?;
    let mut feed = PlainFeed::<Arc<u8>>::make(alloc, 4)?;
    assert!(rt; feed.capacity() == 4 && feed.room());
    feed.put(Msg::Fork {
        update: 1,
        old: Arc::try_clone(&guest)?,
        module: Bytes::from_slice(alloc, b"m")?,
        forward: Bytes::from_slice(alloc, b"f")?,
        reverse: Bytes::from_slice(alloc, b"r")?,
    });
    if feed.room() {
        feed.put(Msg::Heard {
            item: Item {
                call: Call::Yield,
                reply: Reply::Done,
            },
        });
    }
    if feed.room() {
        feed.put(Msg::Hand { n: 9 });
    }
    if feed.room() {
        feed.put(Msg::Stand {
            guest: Arc::try_clone(&guest)?,
        });
    }
    assert!(rt; !feed.room());
    assert!(rt; matches!(feed.take(), Some(Msg::Fork { update: 1, .. })));
    assert!(rt; matches!(feed.take(), Some(Msg::Heard { .. })));
    assert!(rt; matches!(feed.take(), Some(Msg::Hand { n: 9 })));
    assert!(rt; Arc::strong_count(&guest) == 2);
    drop(feed);
    assert!(rt; Arc::strong_count(&guest) == 1);
    Ok(())
}
