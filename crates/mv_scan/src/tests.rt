//! Lines with their words, texts with their escapes, numbers, and the lines of a text.

use super::*;
use std::alloc::Global;
use std::test::Fail;

/// A line, and its words behind `|`: plain words as they stand, texts between `<` and `>`, `?` for a broken text, `!` for one
/// that bytes follow without a space.
const LINES: &str = "\
|
  |
; \"words\" of none|
  ;a|
 read $f  -> @x | read $f -> @x
a;b ;c| a;b ;c
a\"b c\"| a\"b c\"
\"a  b\" c| <a  b> c
\"\" \"; a\"| <> <; a>
\"a\\\" b\" \\\"| <a\" b> \\\"
\"a\\\\\" b| <a\\> b
\"a\"b c| ! c
\"a\"\"b\" c| ! c
\"a\\q\"b c| ! c
\"ab c| ?
\"ab\\\" c| ?
\"ab\\| ?
\"a\\q\" c| ? c
\"a\tb\" c| ? c
\"\\x4\" -> all| ? -> all
\"\\x\" c| ? c
\"\\x4g\" c| ? c
\"\\xg4\" c| ? c
\"\\x41\" c| <A> c
\"\\x\\\" c\" d| ? d
\"\\x4\\\" c\" d| ? d
\"\\x4\\\\\" c| ? c
\"\\x4\"b c| ! c
";

/// The words of a line, shown as in the table.
fn shown(alloc: Global, line: &str) -> Result<Vec<u8>, Fail> {
    let words = split_line(alloc, line.as_bytes())?;
    let mut shown = Vec::new(alloc);
    for word in words.as_slice() {
        shown.push(b' ')?;
        match word {
            Token::Plain(bytes) => shown.extend_from_slice(bytes.slice())?,
            Token::Quoted(Some(text)) => {
                shown.push(b'<')?;
                shown.extend_from_slice(text.slice())?;
                shown.push(b'>')?;
            }
            Token::Quoted(None) => shown.push(b'?')?,
            Token::Glued => shown.push(b'!')?,
        }
    }
    Ok(shown)
}

/// Whether the line of a row has the row's words.
fn is_shown(alloc: Global, row: &str) -> Result<bool, Fail> {
    let Some((line, words)) = row.split_once("|") else {
        return Ok(false);
    };
    Ok(shown(alloc, line)?.as_slice() == words.as_bytes())
}

#[test]
fn each_line_has_its_words(rt: HostRuntime) -> Result<(), Fail> {
    let alloc = rt.alloc();
    for row in LINES.lines() {
        assert!(rt; is_shown(alloc, row)?, "{row}");
    }
    Ok(())
}

#[test]
fn escapes_are_read(rt: HostRuntime) -> Result<(), Fail> {
    let alloc = rt.alloc();
    let words = split_words(alloc, b";\"OK\" \"OK\\n\\r\\t\\\"\\\\\\x41\\xfF~\"")?;
    assert!(rt; !has_bad_text(words.as_slice()));
    let text = match words.as_slice() {
        [_, Token::Quoted(Some(text))] => text.slice(),
        _ => &[],
    };
    assert_eq!(rt; text, b"OK\n\r\t\"\\A\xff~".as_slice());
    Ok(())
}

/// A number from 1 to the greatest of 64 bits: 0 stands for one out of range, none for what is no number.
fn number(digits: &str) -> Option<u64> {
    match read_number(digits.as_bytes(), 1, 0xFFFF_FFFF_FFFF_FFFF) {
        Found::Other => None,
        Found::OutOfRange => Some(0),
        Found::Is(n) => Some(n),
    }
}

#[test]
fn numbers_are_decimal(rt: HostRuntime) -> Result<(), Fail> {
    for (digits, found) in [
        ("7", Some(7)),
        ("007", Some(7)),
        ("18446744073709551615", Some(18_446_744_073_709_551_615)),
        ("18446744073709551616", Some(0)),
        ("99999999999999999999999", Some(0)),
        ("0", Some(0)),
        ("", None),
        ("-1", None),
        ("0x1", None),
        ("1 ", None),
    ] {
        assert!(rt; number(digits) == found, "{digits}");
    }
    Ok(())
}

#[test]
fn the_last_line_may_lack_its_feed(rt: HostRuntime) -> Result<(), Fail> {
    let (first, rest) = first_line(b"a\r\n\nb");
    assert_eq!(rt; first, b"a\r".as_slice());
    let (second, rest) = first_line(rest);
    assert_eq!(rt; second, b"".as_slice());
    let (third, rest) = first_line(rest);
    assert_eq!(rt; third, b"b".as_slice());
    assert_eq!(rt; rest, b"".as_slice());
    Ok(())
}
