//! Rules files that are read, and one for each row of the table of faults, in both versions.

use super::*;
use mv_calls::Or;
use std::alloc::Global;
use std::test::Fail;

/// A text behind its first line, and its fault, which is the same in both versions.
const BOTH: &str = "\
Shape 2: read 4 -> errno 1~
Shape 2: to~
Shape 2: end~
Shape 3: rule~rule~
Shape 4: rule~yield -> done~end~
Shape 5: rule~yield -> done~to~rule~
Shape 5: rule~yield -> done~to~to~
Shape 5: rule~read $f -> @x~to~
Shape 3: rule
Empty 3: rule~to~
Word 2: fly~
Word 2: rule now~
Word 3: rule~fly $f -> @x~
Word 3: rule~read $f @x~
Word 3: rule~read $f -> errno x~
Word 3: rule~read $f -> \"a\"b~
Word 3: rule~clock 0 -> $t~
Word 3: rule~write $f -> all~
Word 3: rule~close $f -> \"done\"~
Number 3: rule~read 4294967296 -> @x~
Number 3: rule~read 4 -> errno 0~
Number 3: rule~write 4 @x -> errno 65536~
Number 3: rule~accept 4 65536 -> 5~
Number 3: rule~shutdown 4 0 -> done~
Number 3: rule~shutdown 4 4 -> done~
Number 3: rule~clock 2 -> 0~
Number 3: rule~clock 0 -> 18446744073709551616~
Number 3: rule~read 4 -> @x:0~
Number 3: rule~read 4 -> @x:65537~
Quote 3: rule~read 4 -> \"ab~
Quote 3: rule~write $f \"\\x4\" -> all~
Quote 3: rule~write $f \"\\x\" -> all~
Quote 3: rule~write $f \"\\x4g\" -> all~
Quote 3: rule~write $f \"\\xg4\" -> all~
Shape 4: rule~write $f \"\\x41\" -> all~
Name 3: rule~read $ -> @x~
Name 3: rule~read $aB -> @x~
Name 3: rule~read $abcdefghijklmnopq -> @x~
Name 3: rule~read 4 -> @x @y:2~
Name 3: rule~read 4 -> @a:x~
Name 3: rule~clock 0 -> %1~
Name 5: rule~read 4 -> @x:4~to~read 4 -> @x:4~
Twice 3: rule~read 4 -> @x:1 @x~
Twice 4: rule~read 4 -> @x~read 5 -> @x~
Unbound 5: rule~read $f -> @x~to~read $g -> @x~
Unbound 5: rule~read $f -> @x~to~read $f -> @y~
Unbound 5: rule~close $x -> done~to~read 4 -> @x~
Unbound 5: rule~clock 0 -> %t~to~close $t -> done~
Unbound 5: rule~close $t -> done~to~clock 0 -> %t~
Shape 5: ; ~~  ~end~
Name 5: rule~yield -> done~to~read 4 -> @y:1~
";

/// What version 1 doesn't know.
const FIRST: &str = "\
Word 4: rule~read 4 -> @x~when @x > 1~
Word 5: rule~read 4 -> @x~to~read 4 -> #x~
Word 3: rule~read 4 -> #x~
Word 2: when @x > 1~
";

/// Guards and lengths.
const SECOND: &str = "\
Word 2: when @x > 1~
Word 5: rule~read 4 -> @x~to~when @x > 1~
Word 3: rule~read 4 -> #x~
Word 4: rule~read 4 -> @x~when @x >~
Word 4: rule~read 4 -> @x~when x > 1~
Word 4: rule~read 4 -> @x~when @x >= 1~
Word 4: rule~read 4 -> @x~when @x > 1 2~
Number 4: rule~read 4 -> @x~when @x > 65537~
Name 4: rule~read 4 -> @x~when @x:1 > 1~
Name 5: rule~read 4 -> @x~to~read 4 -> #X~
Unbound 5: rule~read 4 -> @x~to~read 4 -> #y~
Unbound 5: rule~read $x -> @y~to~read 4 -> #x~
Guard 3: rule~when @x > 1~read 4 -> @x~
Guard 4: rule~read $f -> @x~when @f > 1~
Shape 2: to~when @x > 1~
Word 3: rule~when @x~
";

/// Lines that have two kinds of fault, of which the earlier in the table counts. There is a row for each kind and the next that one
/// line can have beside it; behind them stand pairs with others between. No line has Many and Empty, Twice and Unbound, or Unbound
/// and Guard: they come on other lines.
const PAIRS: &str = "\
Shape 2: read 4 -> \"1\" \"2\" \"3\" \"4\" \"5\" \"6\" \"7\" \"8\" @a:1 @b:1 @c:1 @d:1 @e:1 @f:1 @g:1 @h:1 @i:1~
Shape 2: to~
Many 11: rule~yield -> done~yield -> done~yield -> done~yield -> done~yield -> done~yield -> done~yield -> done~yield -> done~yield~
Many 3: rule~read 4 @a:1 @b:1 @c:1 @d:1 @e:1 @f:1 @g:1 @h:1 @i:1 @j:1 @k:1 @l:1 @m:1 @n:1 @o:1 @p:1 @q:1~
Empty 3: rule~to x~
Word 3: rule~read 4294967296 -> errno x~
Number 3: rule~read 4294967296 -> \"ab~
Quote 3: rule~read $A -> \"ab~
Name 3: rule~read $A -> @x:1 @x~
Name 5: rule~yield -> done~to~read $G -> @y~
Shape 2: to x~
Shape 2: read $A @x~
Many 11: rule~yield -> done~yield -> done~yield -> done~yield -> done~yield -> done~yield -> done~yield -> done~yield -> done~read 4294967296 -> @x~
Many 11: rule~yield -> done~yield -> done~yield -> done~yield -> done~yield -> done~yield -> done~yield -> done~yield -> done~read $A -> \"ab~
Word 3: rule~read \"ab~
Number 3: rule~read 4294967296 -> @X~
Number 3: rule~read 4294967296 -> @x:1 @x~
Number 5: rule~yield -> done~to~read 4294967296 -> @y~
Quote 3: rule~read 4 -> @x:1 @x:1 \"ab~
Quote 5: rule~yield -> done~to~read $g -> @y \"ab~
";

/// The same of guards and lengths.
const SECOND_PAIRS: &str = "\
Word 4: rule~read 4 -> @x~when x > 65537~
Number 4: rule~read 4 -> @x~when @X > 65537~
Name 4: rule~read 4 -> @x~when @Y > 1~
Word 5: rule~read 4 -> @x~to~when @y > 1~
Number 4: rule~read 4 -> @x~when @y > 65537~
Quote 5: rule~read 4 -> @x~to~read $g -> \"ab #x~
Name 5: rule~read 4 -> @x~to~read $g -> #Y~
";

/// Whether a row's text has the row's fault; `header` stands before it, and `count` times `again` behind it.
fn comes(alloc: Global, header: &str, row: &str, again: &str, count: usize) -> Result<bool, Fail> {
    let Some((fault, begin)) = row.split_once(": ") else {
        return Ok(false);
    };
    let mut text = Vec::from_slice(alloc, header.as_bytes())?;
    push_lines(&mut text, begin)?;
    for _ in 0..count {
        push_lines(&mut text, again)?;
    }
    match parse_rules(alloc, text.as_slice()) {
        Err(Or::Fault(found)) => Ok(format!(in alloc; "{found}")?.as_str() == fault),
        _ => Ok(false),
    }
}

/// Pushes the bytes, with a line feed for each `~`.
fn push_lines(text: &mut Vec<u8>, lines: &str) -> Result<(), Fail> {
    for byte in lines.bytes() {
        text.push(if byte == b'~' { b'\n' } else { byte })?;
    }
    Ok(())
}

#[test]
fn each_kind_comes_at_its_line_in_both_versions(rt: HostRuntime) -> Result<(), Fail> {
    let alloc = rt.alloc();
    for row in BOTH.lines() {
        assert!(rt;
            comes(alloc, "mvrules 1\n", row, "", 0)?,
            "version 1: {row}"
        );
        assert!(rt;
            comes(alloc, "mvrules 2\n", row, "", 0)?,
            "version 2: {row}"
        );
    }
    Ok(())
}

#[test]
fn guards_and_lengths_are_of_version_2(rt: HostRuntime) -> Result<(), Fail> {
    let alloc = rt.alloc();
    for row in FIRST.lines() {
        assert!(rt;
            comes(alloc, "mvrules 1\n", row, "", 0)?,
            "version 1: {row}"
        );
    }
    for row in SECOND.lines() {
        assert!(rt;
            comes(alloc, "mvrules 2\n", row, "", 0)?,
            "version 2: {row}"
        );
    }
    Ok(())
}

#[test]
fn the_earlier_of_two_kinds_counts(rt: HostRuntime) -> Result<(), Fail> {
    let alloc = rt.alloc();
    for row in PAIRS.lines() {
        assert!(rt;
            comes(alloc, "mvrules 1\n", row, "", 0)?,
            "version 1: {row}"
        );
        assert!(rt;
            comes(alloc, "mvrules 2\n", row, "", 0)?,
            "version 2: {row}"
        );
    }
    Ok(())
}

#[test]
fn the_earlier_kind_counts_at_guards(rt: HostRuntime) -> Result<(), Fail> {
    let alloc = rt.alloc();
    for row in SECOND_PAIRS.lines() {
        assert!(rt; comes(alloc, "mvrules 2\n", row, "", 0)?, "{row}");
    }
    Ok(())
}

/// Whole texts, with how often the last lines of each stand.
#[test]
fn limits_are_kept(rt: HostRuntime) -> Result<(), Fail> {
    let alloc = rt.alloc();
    for (row, again, count) in [
        ("Header 1: ", "", 0),
        ("Header 1: mvrules 3~", "", 0),
        ("Header 1: mvrules 1 ~", "", 0),
        ("Header 1: to~", "", 0),
        ("Size 1: mvrules 2~", "~", 65_527),
        ("Size 1: x", "~", 65_536),
        ("Shape 65524: mvrules 2~rule", "~", 65_522),
        ("Many 258: mvrules 1~", "rule~yield -> done~to~end~", 65),
        ("Many 11: mvrules 1~rule~", "yield -> done~", 9),
        (
            "Many 21: mvrules 1~rule~yield -> done~to~",
            "yield -> done~",
            17,
        ),
        ("Many 3: mvrules 1~rule~read 4 -> ", "\"a\" ", 17),
        ("Many 3: mvrules 1~rule~read 4 ", "\"a\" ", 17),
        (
            "Many 5: mvrules 2~rule~read 4 -> @x~to~read 4 -> ",
            "#x ",
            17,
        ),
        ("Word 3: mvrules 1~rule~read 4 -> ", "#x ", 17),
        ("Guard 12: mvrules 2~rule~read 4 -> @x~", "when @x > 9~", 9),
    ] {
        assert!(rt; comes(alloc, "", row, again, count)?, "{row}");
    }
    Ok(())
}

/// A file of version 2 with every form: two rules, at lines 3 and 22.
const WHOLE: &str = "mvrules 2
; every form
rule
read $f -> @a:4 \"x\" @b
when @a = 4
when @b > 9
when @b < 65536
read 007 -> errno 6
write $f @c -> all
write $f \"q\" -> errno 65535
accept 3 0 -> $new
accept 3 65535 -> errno 1
close $new -> done
close 4294967295 -> errno 8
to
shutdown $f 1 -> done
shutdown $f 3 -> errno 53
yield -> done
clock 1 -> 18446744073709551615
random -> \"\" @a #b
  end
rule
clock 0 -> %t
random -> @r:65536
to
end";

#[test]
fn every_form_is_read(rt: HostRuntime) -> Result<(), Fail> {
    let alloc = rt.alloc();
    let rules = match parse_rules(alloc, WHOLE.as_bytes()) {
        Ok(rules) => rules,
        Err(_) => Rules::none(alloc),
    };
    assert_eq!(rt; rules.count(), 2);
    assert_eq!(rt; sizes(&rules.slice()[0]), (3, 8, 3, 5));
    assert_eq!(rt; sizes(&rules.slice()[1]), (22, 2, 0, 0));
    Ok(())
}

/// The line of a rule, and how many items and guards it has.
fn sizes(rule: &Rule) -> (u32, usize, usize, usize) {
    (
        rule.line,
        rule.left.slice().len(),
        rule.guards.slice().len(),
        rule.right.slice().len(),
    )
}
