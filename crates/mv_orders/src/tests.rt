//! Each reply line of the table, and order lines with each fault (docs/FORMATS.md, "Orders").

ghost use Rattle.mv_orders.specs.Reply.{IsText};

use super::*;
use mv_calls::{Bytes, Or};
use std::alloc::Global;
use std::test::*;

/// The reply is written as this line, whose length is told.
fn is_line(alloc: Global, reply: OrderReply, line: &[u8]) -> Result<bool, Fail>
    requires { IsText reply }
{
    let made = reply_line(alloc, &reply)?;
    Ok(made.slice() == line && reply_length(&reply) == line.len())
}

#[test]
fn replies_are_the_lines_of_the_table(rt: HostRuntime) -> Result<(), Fail> {
    let alloc = rt.alloc();
    let update = OrderReply::Accepted {
        word: Word::Update,
        update: 1,
    };
    assert!(rt; is_line(alloc, update, b"{\"ok\":\"update\",\"update\":1}\n")?);
    let promote = OrderReply::Accepted {
        word: Word::Promote,
        update: 0,
    };
    assert!(rt; is_line(alloc, promote, b"{\"ok\":\"promote\"}\n")?);
    let told = OrderReply::Told {
        stage: Stage::OldAlone,
        update: 0,
        last: Last::Never,
    };
    assert!(rt;
        is_line(
            alloc,
            told,
            b"{\"last\":\"never\",\"ok\":\"status\",\"stage\":\"OldAlone\",\"update\":0}\n"
        )?
    );
    let stage = OrderReply::Stage {
        now: Stage::NewLeads,
    };
    assert!(rt; is_line(alloc, stage, b"{\"no\":\"stage\",\"now\":\"NewLeads\"}\n")?);
    assert!(rt;
        is_line(
            alloc,
            OrderReply::Busy { update: 2 },
            b"{\"no\":\"busy\",\"update\":2}\n"
        )?
    );
    assert!(rt; is_line(alloc, OrderReply::Many, b"{\"no\":\"many\"}\n")?);
    Ok(())
}

#[test]
fn refusals_are_the_lines_of_the_table(rt: HostRuntime) -> Result<(), Fail> {
    let alloc = rt.alloc();
    assert!(rt; is_line(alloc, OrderReply::Long, b"{\"no\":\"long\"}\n")?);
    assert!(rt; is_line(alloc, OrderReply::Utf8, b"{\"no\":\"utf8\"}\n")?);
    let text = Bytes::from_slice(alloc, "a \"b\"\t".as_bytes())?;
    assert!(rt;
        is_line(
            alloc,
            OrderReply::Unknown { text },
            b"{\"no\":\"unknown\",\"text\":\"a \\\"b\\\"\\t\"}\n"
        )?
    );
    let path = Bytes::from_slice(alloc, "old".as_bytes())?;
    assert!(rt;
        is_line(
            alloc,
            OrderReply::Missing { path },
            b"{\"no\":\"missing\",\"path\":\"old\"}\n"
        )?
    );
    let path = Bytes::from_slice(alloc, "old".as_bytes())?;
    assert!(rt;
        is_line(
            alloc,
            OrderReply::Failed { path },
            b"{\"no\":\"failed\",\"path\":\"old\"}\n"
        )?
    );
    Ok(())
}

/// The line is refused for this reason.
fn is_refused(alloc: Global, line: &[u8], fault: OrderFault) -> bool {
    matches!(read_order(alloc, line), Err(Or::Fault(found)) if found == fault)
}

#[test]
fn lines_are_orders_or_have_their_fault(rt: HostRuntime) -> Result<(), Fail> {
    let alloc = rt.alloc();
    assert!(rt; matches!(read_order(alloc, b"promote"), Ok(Order::Promote)));
    assert!(rt; matches!(read_order(alloc, b"status"), Ok(Order::Status)));
    assert!(rt;
        matches!(
            read_order(alloc, b"update a none none"),
            Ok(Order::Update { .. })
        )
    );
    for line in [
        b"jump".as_slice(),
        b"".as_slice(),
        b"promote ".as_slice(),
        b"update  a b".as_slice(),
        b"update a b".as_slice(),
        b"Promote".as_slice(),
    ] {
        assert!(rt; is_refused(alloc, line, OrderFault::Unknown));
    }
    assert!(rt; is_refused(alloc, b"\xff", OrderFault::Utf8));
    let mut line = Vec::new(alloc);
    line.resize(4_096, b'a')?;
    assert!(rt; is_refused(alloc, line.as_slice(), OrderFault::Unknown));
    line.push(0xff)?;
    assert!(rt; is_refused(alloc, line.as_slice(), OrderFault::Long));
    Ok(())
}
