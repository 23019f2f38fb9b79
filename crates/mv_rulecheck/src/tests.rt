//! Rules that are kept, and rules that drop, double or change what is read or accepted.

use super::*;
use mv_rules::{Rules, parse_rules};
use std::alloc::Global;
use std::test::Fail;

/// Texts behind their first line, each with what comes: `kept` and how many rules, or the fault. A `~` is a line feed.
const ROWS: &str = "\
Reads 2: rule~read $f -> @x~to~end~
Reads 2: rule~read $f -> @x~to~read $f -> @x~read $f -> @x~end~
Reads 2: rule~read $f -> @x:4 @y~to~read $f -> @y @x~end~
Reads 2: rule~read 4 -> @x~to~read 5 -> @x~end~
Reads 2: rule~read $f -> \"ab\"~to~read $f -> \"b\"~end~
Reads 2: rule~read $f -> \"ab\"~to~read $f -> \"aB\"~end~
Reads 2: rule~read $f -> @x~to~read $f -> errno 6~end~
Reads 2: rule~read $f -> @x~to~read $f -> #x @x~end~
Reads 6: rule~yield -> done~to~end~rule~yield -> done~to~read 4 -> \"a\"~end~
Accepts 2: rule~accept 3 0 -> $n~to~end~
Accepts 2: rule~accept 3 0 -> $n~to~accept 3 0 -> $n~accept 3 0 -> $n~end~
Accepts 2: rule~accept 3 0 -> $n~to~accept 4 0 -> $n~end~
Reads 2: rule~read $f -> @x~accept 3 0 -> $n~to~end~
kept 1: rule~read $f -> @a:4 @b~to~read $f -> @a~read $f -> @b~end~
kept 1: rule~read $f -> \"abcd\"~to~read $f -> \"ab\"~read $f -> \"cd\"~end~
kept 1: rule~read 4 -> @x~to~read 04 -> @x~end~
kept 1: rule~read $f -> errno 6~write $f @b -> all~when @b > 9~to~write $f #b \":\" @b -> all~end~
kept 2: rule~accept 3 0 -> $n~to~yield -> done~accept 3 4 -> $n~end~rule~yield -> done~to~end~
";

/// The rules of a text of version 2, with a line feed for each `~`.
fn rules_of(alloc: Global, lines: &str) -> Result<Rules, Fail> {
    let mut text = Vec::from_slice(alloc, b"mvrules 2\n")?;
    for byte in lines.bytes() {
        text.push(if byte == b'~' { b'\n' } else { byte })?;
    }
    match parse_rules(alloc, text.as_slice()) {
        Ok(rules) => Ok(rules),
        Err(_) => Ok(Rules::none(alloc)),
    }
}

fn comes(alloc: Global, row: &str) -> Result<bool, Fail> {
    let Some((want, lines)) = row.split_once(": ") else {
        return Ok(false);
    };
    let found = match keep_reads(rules_of(alloc, lines)?) {
        Ok(kept) => format!(in alloc; "kept {}", kept.slice().len())?,
        Err(fault) => format!(in alloc; "{fault}")?,
    };
    Ok(found.as_str() == want)
}

#[test]
fn reads_and_accepts_are_kept(rt: HostRuntime) -> Result<(), Fail> {
    let alloc = rt.alloc();
    for row in ROWS.lines() {
        assert!(rt; comes(alloc, row)?, "{row}");
    }
    Ok(())
}
