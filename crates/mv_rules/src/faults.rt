//! The table of faults: what a line has, in the order of the table.
ghost use Rattle.std.specs.Prelude.{◌≡◌, ◌+◌, ◌≤◌, length, not};
ghost use Rattle.std.specs.List.{list_any};
ghost use Rattle.mv_scan.specs.Found.{is_other};
ghost use Rattle.mv_rules.specs.Forms.{part_of};
ghost use Rattle.mv_rules.specs.RulesText.{faults_on, first_fault, is_bad_guard, is_bad_guard_in, is_empty_left, is_excess, is_formless, is_full, is_left, is_misnamed, is_misnamed_item, is_misplaced, is_twice, is_twice_in, is_unbound, is_unbound_in, is_unfit, part_count};
ghost use Rattle.mv_scan.specs.Words.{is_bad_text};

use crate::fault::RuleKind;
use crate::line::Line;
use crate::names::{
    bytes_are_bound, has_again, has_good_names, has_sized, is_all_bound, parts_in, rest_is_last,
};
use crate::reading::{Phase, Reading};
use crate::rule::{Guard, Pattern};
use mv_scan::{Found, Token, has_bad_text, is_name};

/// An item outside a rule, or `rule`, `to` or `end` out of place.
fn is_misplaced(phase: &Phase, line: &Line) -> bool
    ensures { result ≡ is_misplaced phase.now line.now }
{
    match (phase, line) {
        (Phase::Outside, Line::Turns(_)) => true,
        (Phase::Outside, Line::Ends(_)) => true,
        (Phase::Outside, Line::Item(_)) => true,
        (Phase::InLeft(_), Line::Begins(_)) => true,
        (Phase::InLeft(_), Line::Ends(_)) => true,
        (Phase::InRight(_), Line::Begins(_)) => true,
        (Phase::InRight(_), Line::Turns(_)) => true,
        _ => false,
    }
}

/// Whether the word is a part of a byte list.
fn is_part(lengths: bool, token: &Token) -> bool
    ensures { result ≡ not (is_other (part_of lengths token.now)) }
{
    match token {
        Token::Plain(word) => match word.slice() {
            [b'@', ..] => true,
            [b'#', ..] => lengths,
            _ => false,
        },
        Token::Quoted(_) => true,
        Token::Glued => false,
    }
}

/// How many words are parts of a byte list.
fn part_count(lengths: bool, tokens: &[Token]) -> usize
    ensures count { result ≡ part_count lengths tokens.now }
    ensures within { result ≤ length tokens.now }
{
    let mut count = 0;
    for token in tokens {
        if is_part(lengths, token) {
            count += 1;
        }
    }
    count
}

fn is_full(phase: &Phase) -> bool
    ensures { result ≡ is_full phase.now }
{
    match phase {
        Phase::Outside => false,
        Phase::InLeft(rule) => rule.left.slice().len() >= 8,
        Phase::InRight(rule) => rule.right.slice().len() >= 16,
    }
}

/// One too many: rules, items of a side, parts of a byte list.
fn is_excess(reading: &Reading, lengths: bool, tokens: &[Token], line: &Line) -> bool
    ensures { result ≡ is_excess reading.now lengths tokens.now line.now }
{
    match line {
        Line::Begins(_) => reading.rules.count() >= 64,
        Line::Item(_) => part_count(lengths, tokens) > 16 || is_full(&reading.phase),
        _ => false,
    }
}

/// A right side after no left item.
fn is_empty_left(phase: &Phase, line: &Line) -> bool
    ensures { result ≡ is_empty_left phase.now line.now }
{
    match (phase, line) {
        (Phase::InLeft(rule), Line::Turns(_)) => rule.left.slice().len() == 0,
        _ => false,
    }
}

fn is_left(phase: &Phase) -> bool
    ensures { result ≡ is_left phase.now }
{
    match phase {
        Phase::InLeft(_) => true,
        _ => false,
    }
}

/// None of the forms.
fn is_formless(phase: &Phase, line: &Line) -> bool
    ensures { result ≡ is_formless phase.now line.now }
{
    match line {
        Line::Blank => false,
        Line::Begins(more) => *more,
        Line::Turns(more) => *more,
        Line::Ends(more) => *more,
        Line::Item(Found::Other) => true,
        Line::Item(_) => false,
        Line::When(Found::Other) => true,
        Line::When(_) => !is_left(phase),
        Line::Other => true,
    }
}

/// A number out of its range.
fn is_unfit(line: &Line) -> bool
    ensures { result ≡ is_unfit line.now }
{
    match line {
        Line::Item(Found::OutOfRange) => true,
        Line::When(Found::OutOfRange) => true,
        _ => false,
    }
}

fn is_misnamed_item(phase: &Phase, pattern: &Pattern) -> bool
    ensures { result ≡ is_misnamed_item phase.now pattern.now }
{
    match phase {
        Phase::Outside => false,
        Phase::InLeft(_) => !(has_good_names(pattern) && rest_is_last(parts_in(pattern))),
        Phase::InRight(_) => !has_good_names(pattern) || has_sized(parts_in(pattern)),
    }
}

/// A name of another form, or a part that doesn't stand on this side or in this place.
fn is_misnamed(phase: &Phase, line: &Line) -> bool
    ensures { result ≡ is_misnamed phase.now line.now }
{
    match line {
        Line::Item(Found::Is(pattern)) => is_misnamed_item(phase, pattern),
        Line::When(Found::Is(guard)) => !is_name(guard.name.slice()),
        _ => false,
    }
}

fn is_twice_in(phase: &Phase, pattern: &Pattern) -> bool
    ensures { result ≡ is_twice_in phase.now pattern.now }
{
    match phase {
        Phase::InLeft(rule) => has_again(rule.left.slice(), parts_in(pattern)),
        _ => false,
    }
}

/// A byte name again on the left.
fn is_twice(phase: &Phase, line: &Line) -> bool
    ensures { result ≡ is_twice phase.now line.now }
{
    match line {
        Line::Item(Found::Is(pattern)) => is_twice_in(phase, pattern),
        _ => false,
    }
}

fn is_unbound_in(phase: &Phase, pattern: &Pattern) -> bool
    ensures { result ≡ is_unbound_in phase.now pattern.now }
{
    match phase {
        Phase::InRight(rule) => !is_all_bound(rule.left.slice(), pattern),
        _ => false,
    }
}

/// A right name that the left doesn't bind.
fn is_unbound(phase: &Phase, line: &Line) -> bool
    ensures { result ≡ is_unbound phase.now line.now }
{
    match line {
        Line::Item(Found::Is(pattern)) => is_unbound_in(phase, pattern),
        _ => false,
    }
}

fn is_bad_guard_in(phase: &Phase, guard: &Guard) -> bool
    ensures { result ≡ is_bad_guard_in phase.now guard.now }
{
    match phase {
        Phase::InLeft(rule) => {
            !bytes_are_bound(rule.left.slice(), guard.name.slice())
                || rule.guards.slice().len() >= 8
        }
        _ => false,
    }
}

/// A guard of a name that no earlier item binds, or a rule's ninth.
fn is_bad_guard(phase: &Phase, line: &Line) -> bool
    ensures { result ≡ is_bad_guard phase.now line.now }
{
    match line {
        Line::When(Found::Is(guard)) => is_bad_guard_in(phase, guard),
        _ => false,
    }
}

/// The first kind of fault that the line has, in the order of the table.
pub fn fault_on(reading: &Reading, lengths: bool, tokens: &[Token], line: &Line) -> Option<RuleKind>
    ensures { result ≡ first_fault (faults_on reading.now lengths tokens.now line.now) }
{
    if is_misplaced(&reading.phase, line) {
        Some(RuleKind::Shape)
    } else if is_excess(reading, lengths, tokens, line) {
        Some(RuleKind::Many)
    } else if is_empty_left(&reading.phase, line) {
        Some(RuleKind::Empty)
    } else if is_formless(&reading.phase, line) {
        Some(RuleKind::Word)
    } else if is_unfit(line) {
        Some(RuleKind::Number)
    } else if has_bad_text(tokens) {
        Some(RuleKind::Quote)
    } else if is_misnamed(&reading.phase, line) {
        Some(RuleKind::Name)
    } else if is_twice(&reading.phase, line) {
        Some(RuleKind::Twice)
    } else if is_unbound(&reading.phase, line) {
        Some(RuleKind::Unbound)
    } else if is_bad_guard(&reading.phase, line) {
        Some(RuleKind::Guard)
    } else {
        None
    }
}
