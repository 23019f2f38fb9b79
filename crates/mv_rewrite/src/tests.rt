ghost use Rattle.mv_rules.specs.Shape.{AreShaped};
ghost use Rattle.std.specs.Prelude.{◌≡◌};

use crate::{Rewriter, rewrite_whole};
use mv_calls::{Bytes, Call, Item, OutOfMemory, Reply, copy_item};
use mv_rulecheck::{KeptRules, keep_reads};
use mv_rules::{Rule, parse_rules};
use std::alloc::Global;
use std::process::Abort;
use std::test::Fail;

/// What is read, or written, of which descriptor.
type Moved<'a> = (u32, &'a [u8]);

/// The rules of a text, which keep their reads.
fn kept(alloc: Global, text: &[u8]) -> Result<KeptRules, OutOfMemory> {
    let Ok(rules) = parse_rules(alloc, text) else {
        return Err(OutOfMemory);
    };
    match keep_reads(rules) {
        Ok(kept) => Ok(kept),
        Err(_) => Err(OutOfMemory),
    }
}

/// A read with the cap 64, or a write that is taken whole.
fn item(alloc: Global, reads: bool, moved: Moved) -> Result<Item, OutOfMemory> {
    let (fd, slice) = moved;
    if slice.len() > 64 {
        return Err(OutOfMemory);
    }
    let count = slice.len() as u32;
    let bytes = Bytes::from_slice(alloc, slice)?;
    Ok(if reads {
        Item {
            call: Call::Read { fd, cap: 64 },
            reply: Reply::Bytes(bytes),
        }
    } else {
        Item {
            call: Call::Write { fd, bytes },
            reply: Reply::Count(count),
        }
    })
}

fn items(alloc: Global, reads: bool, rows: &[Moved]) -> Result<Vec<Item>, OutOfMemory> {
    let mut items = Vec::new(alloc);
    for row in rows {
        items.push(item(alloc, reads, *row)?)?;
    }
    Ok(items)
}

/// An item in words: the first letter of its call, or `e` for a write that fails, the descriptor, the cap, the count or the
/// errno, and the bytes.
fn show(shown: &mut Vec<u8>, item: &Item) -> Result<(), OutOfMemory> {
    let (letter, fd, number, bytes) = match (&item.call, &item.reply) {
        (Call::Write { fd, bytes }, Reply::Count(count)) => (b'w', *fd, *count, bytes.slice()),
        (Call::Write { fd, bytes }, Reply::Errno(errno)) => {
            (b'e', *fd, u32::from(*errno), bytes.slice())
        }
        (Call::Read { fd, cap }, Reply::Bytes(bytes)) => (b'r', *fd, *cap, bytes.slice()),
        _ => return Ok(()),
    };
    let mut digits = itoa::Buffer::new();
    shown.push(letter)?;
    shown.extend_from_slice(digits.format(fd).as_bytes())?;
    shown.push(b' ')?;
    shown.extend_from_slice(digits.format(number).as_bytes())?;
    shown.push(b' ')?;
    shown.extend_from_slice(bytes)?;
    shown.push(b';')?;
    Ok(())
}

fn show_all(shown: &mut Vec<u8>, items: &[Item]) -> Result<(), OutOfMemory> {
    for item in items {
        show(shown, item)?;
    }
    Ok(())
}

/// What the plain function makes of the whole list.
fn plain(alloc: Global, rules: &[Rule], items: &[Item], more: bool) -> Result<Vec<u8>, OutOfMemory>
    requires { AreShaped rules.now }
{
    let given = rewrite_whole(alloc, rules, items, more)?;
    let mut shown = Vec::new(alloc);
    for group in &given {
        show_all(&mut shown, group.slice())?;
    }
    Ok(shown)
}

/// What the rewriter gives until it answers none.
fn given(alloc: Global, rewriter: &mut Rewriter, shown: &mut Vec<u8>) -> Result<(), OutOfMemory>
    ensures { rewriter.new.finished ≡ rewriter.old.finished }
{
    for _ in 0..9 {
        match rewriter.next(alloc)? {
            Some(group) => show_all(shown, group.slice())?,
            None => return Ok(()),
        }
    }
    Ok(())
}

/// What the rewriter gives while these items come.
fn streamed(
    alloc: Global,
    rules: KeptRules,
    items: &[Item],
) -> Result<(Rewriter, Vec<u8>), OutOfMemory> {
    let mut rewriter = Rewriter::new(rules)?;
    let mut shown = Vec::new(alloc);
    for item in items {
        if rewriter.held() < 8 {
            rewriter.feed(copy_item(alloc, item)?);
        }
        given(alloc, &mut rewriter, &mut shown)?;
    }
    Ok((rewriter, shown))
}

/// What a row comes to.
#[derive(Clone, Copy)]
struct Wanted<'a> {
    /// All that is given while items may come.
    sure: &'a [u8],
    /// How many items are held then.
    held: usize,
    /// All that is given after `finish`.
    whole: &'a [u8],
}

/// The rewriter and the plain function give what is wanted.
fn check(
    rt: &impl Abort,
    alloc: Global,
    text: &[u8],
    reads: bool,
    moved: &[Moved],
    want: Wanted,
) -> Result<(), Fail> {
    let rules = kept(alloc, text)?;
    let items = items(alloc, reads, moved)?;
    let sure = plain(alloc, rules.slice(), items.as_slice(), true)?;
    assert_eq!(rt; sure.as_slice(), want.sure);
    let whole = plain(alloc, rules.slice(), items.as_slice(), false)?;
    assert_eq!(rt; whole.as_slice(), want.whole);
    let (mut rewriter, mut shown) = streamed(alloc, rules, items.as_slice())?;
    assert_eq!(rt; shown.as_slice(), want.sure);
    assert_eq!(rt; rewriter.held(), want.held);
    rewriter.finish();
    given(alloc, &mut rewriter, &mut shown)?;
    assert_eq!(rt; shown.as_slice(), want.whole);
    assert_eq!(rt; rewriter.held(), 0);
    Ok(())
}

/// `A` and then `B`, written to one descriptor, become `2`.
const BOTH: &[u8] = b"mvrules 1
rule
write $f \"A\" -> all
write $f \"B\" -> all
to
write $f \"2\" -> all
end
";

/// A write of one byte goes, with the write behind it.
const SHORT: &[u8] = b"mvrules 2
rule
write $f @a -> all
when @a = 1
write $f @b -> all
to
end
";

#[test]
fn a_read_is_split_and_keeps_its_bytes(rt: HostRuntime) -> Result<(), Fail> {
    let text = b"mvrules 1
rule
read $f -> @a:4 @b
to
read $f -> @a
read $f -> @b
end
";
    let want = Wanted {
        sure: b"r4 4 abcd;r4 6 efghij;",
        held: 0,
        whole: b"r4 4 abcd;r4 6 efghij;",
    };
    check(&rt, rt.alloc(), text, true, &[(4, b"abcdefghij")], want)
}

#[test]
fn half_a_pattern_is_held(rt: HostRuntime) -> Result<(), Fail> {
    let want = Wanted {
        sure: b"",
        held: 1,
        whole: b"w4 1 A;",
    };
    check(&rt, rt.alloc(), BOTH, false, &[(4, b"A")], want)
}

#[test]
fn a_name_that_stands_twice_has_one_value(rt: HostRuntime) -> Result<(), Fail> {
    let moved = [(4, b"A".as_slice()), (5, b"B"), (5, b"A"), (5, b"B")];
    let want = Wanted {
        sure: b"w4 1 A;w5 1 B;w5 1 2;",
        held: 0,
        whole: b"w4 1 A;w5 1 B;w5 1 2;",
    };
    check(&rt, rt.alloc(), BOTH, false, &moved, want)
}

#[test]
fn the_first_rule_in_the_file_wins(rt: HostRuntime) -> Result<(), Fail> {
    let text = b"mvrules 1
rule
write $f \"A\" -> all
to
write $f \"1\" -> all
end
rule
write $f \"A\" -> all
write $f \"B\" -> all
to
write $f \"2\" -> all
end
";
    let want = Wanted {
        sure: b"w4 1 1;w4 1 B;",
        held: 0,
        whole: b"w4 1 1;w4 1 B;",
    };
    check(&rt, rt.alloc(), text, false, &[(4, b"A"), (4, b"B")], want)
}

#[test]
fn a_guard_and_a_length(rt: HostRuntime) -> Result<(), Fail> {
    let text = b"mvrules 2
rule
write $f @b -> all
when @b > 9
to
write $f #b \":\" @b -> all
end
";
    let moved = [(4, b"abcdefghij".as_slice()), (4, b"abc")];
    let want = Wanted {
        sure: b"w4 13 10:abcdefghij;w4 3 abc;",
        held: 0,
        whole: b"w4 13 10:abcdefghij;w4 3 abc;",
    };
    check(&rt, rt.alloc(), text, false, &moved, want)
}

#[test]
fn a_write_that_fails_is_made(rt: HostRuntime) -> Result<(), Fail> {
    let text = b"mvrules 1
rule
write $f @a -> all
to
write $f \"<\" @a \">\" -> errno 29
end
";
    let want = Wanted {
        sure: b"e4 29 <abc>;",
        held: 0,
        whole: b"e4 29 <abc>;",
    };
    check(&rt, rt.alloc(), text, false, &[(4, b"abc")], want)
}

#[test]
fn a_guard_on_the_first_item_fails_at_once(rt: HostRuntime) -> Result<(), Fail> {
    let want = Wanted {
        sure: b"w4 2 AB;",
        held: 0,
        whole: b"w4 2 AB;",
    };
    check(&rt, rt.alloc(), SHORT, false, &[(4, b"AB")], want)
}

#[test]
fn a_guard_on_the_first_item_holds_and_waits(rt: HostRuntime) -> Result<(), Fail> {
    let want = Wanted {
        sure: b"",
        held: 1,
        whole: b"w4 1 A;",
    };
    check(&rt, rt.alloc(), SHORT, false, &[(4, b"A")], want)
}
