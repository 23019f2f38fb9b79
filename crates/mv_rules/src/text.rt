//! The rules text: line by line, to the rules or the first fault.
ghost use Rattle.std.specs.Prelude.{◌≡◌, ◌∷◌, ◌++◌, ◌≤◌, [], Err, IfErr, IfOk, List, Ok, length, true};
ghost use Rattle.std.specs.List.{list_all};
ghost use Rattle.mv_calls.specs.Or.{IfFault, IsFault};
ghost use Rattle.mv_rules.specs.declared.rule.Rule.{Rule};
ghost use Rattle.mv_rules.specs.Grammar.{IsFirstFaultyLine, Spells, has_bound_guards};
ghost use Rattle.mv_calls.specs.declared.fault.Or.TheVariants.{Fault};
ghost use Rattle.mv_rules.specs.Shape.{IsShaped};
ghost use Rattle.mv_rules.specs.Drafts.{IsDraft};
ghost use Rattle.mv_rules.specs.RulesText.{after_line, at_end, new_rule, ended, read_line, read_lines, rules_in, turned, unless, unread, version_of, with_guard, with_item};
ghost use Rattle.mv_scan.specs.Lines.{line_len, lines_of};

use crate::fault::{RuleFault, RuleKind};
use crate::faults::fault_on;
use crate::line::{Line, lengths_stand, read_line_of};
use crate::lists::{Guards, Patterns, Rules};
use crate::reading::{Phase, Reading, Version};
use crate::rule::{Guard, Pattern, Rule};
use mv_calls::{Or, OutOfMemory};
use mv_scan::{Found, first_line, split_line};
use std::alloc::Global;

/// The largest rules file, in bytes.
const LARGEST: usize = 65_536;

fn with_pattern(items: Patterns, pattern: Pattern) -> Result<Patterns, OutOfMemory>
    ensures { IfOk result (λ all. all ≡ items ++ pattern ∷ []) }
{
    let mut items = items.into_vec();
    items.push(pattern)?;
    Ok(Patterns::from_vec(items))
}

fn with_another(guards: Guards, guard: Guard) -> Result<Guards, OutOfMemory>
    ensures { IfOk result (λ all. all ≡ guards ++ guard ∷ []) }
{
    let mut guards = guards.into_vec();
    guards.push(guard)?;
    Ok(Guards::from_vec(guards))
}

#[tactic(auto, using(crate::proofs::DraftSteps::shaped_more))]
fn with_rule(rules: Rules, rule: Rule) -> Result<Rules, OutOfMemory>
    requires { IsShaped rule }
    ensures { IfOk result (λ all. all ≡ rules ++ rule ∷ []) }
{
    let mut rules = rules.into_vec();
    rules.push(rule)?;
    Ok(Rules::from_vec(rules))
}

/// The rule in the making with one item more.
fn with_item(phase: Phase, found: Found<Pattern>) -> Result<Phase, OutOfMemory>
    ensures { IfOk result (λ next. next ≡ with_item phase found) }
{
    match (phase, found) {
        (Phase::InLeft(rule), Found::Is(pattern)) => Ok(Phase::InLeft(Rule {
            line: rule.line,
            left: with_pattern(rule.left, pattern)?,
            guards: rule.guards,
            right: rule.right,
        })),
        (Phase::InRight(rule), Found::Is(pattern)) => Ok(Phase::InRight(Rule {
            line: rule.line,
            left: rule.left,
            guards: rule.guards,
            right: with_pattern(rule.right, pattern)?,
        })),
        (phase, _) => Ok(phase),
    }
}

/// The rule in the making with one guard more.
fn with_guard(phase: Phase, found: Found<Guard>) -> Result<Phase, OutOfMemory>
    ensures { IfOk result (λ next. next ≡ with_guard phase found) }
{
    match (phase, found) {
        (Phase::InLeft(rule), Found::Is(guard)) => Ok(Phase::InLeft(Rule {
            line: rule.line,
            left: rule.left,
            guards: with_another(rule.guards, guard)?,
            right: rule.right,
        })),
        (phase, _) => Ok(phase),
    }
}

/// The left side is ended.
fn turned(phase: Phase) -> Phase
    ensures { result ≡ turned phase }
{
    match phase {
        Phase::InLeft(rule) => Phase::InRight(rule),
        _ => phase,
    }
}

/// The rule is ended.
fn ended(rules: Rules, phase: Phase) -> Result<Reading, OutOfMemory>
    requires { IsDraft phase }
    ensures { IfOk result (λ next. next ≡ ended rules phase) }
{
    match phase {
        Phase::InRight(rule) => Ok(Reading {
            rules: with_rule(rules, rule)?,
            phase: Phase::Outside,
        }),
        _ => Ok(Reading { rules, phase }),
    }
}

/// A rule of which only the first line was read.
fn new_rule(alloc: Global, at: u32) -> Rule
    ensures { result ≡ new_rule at }
{
    Rule {
        line: at,
        left: Patterns::from_vec(Vec::new(alloc)),
        guards: Guards::from_vec(Vec::new(alloc)),
        right: Patterns::from_vec(Vec::new(alloc)),
    }
}

/// What a line without a fault leaves.
fn after_line(alloc: Global, reading: Reading, at: u32, line: Line) -> Result<Reading, OutOfMemory>
    requires { IsDraft reading.phase }
    ensures { IfOk result (λ next. next ≡ after_line reading at line) }
{
    let Reading { rules, phase } = reading;
    match line {
        Line::Blank => Ok(Reading { rules, phase }),
        Line::Begins(_) => Ok(Reading {
            rules,
            phase: Phase::InLeft(new_rule(alloc, at)),
        }),
        Line::Turns(_) => Ok(Reading {
            rules,
            phase: turned(phase),
        }),
        Line::Ends(_) => ended(rules, phase),
        Line::Item(found) => Ok(Reading {
            rules,
            phase: with_item(phase, found)?,
        }),
        Line::When(found) => Ok(Reading {
            rules,
            phase: with_guard(phase, found)?,
        }),
        Line::Other => Ok(Reading { rules, phase }),
    }
}

/// What a line leaves that has this fault, or none.
fn unless_faulty(
    alloc: Global,
    reading: Reading,
    at: u32,
    line: Line,
    fault: Option<RuleKind>,
) -> Result<Reading, Or<RuleFault>>
    requires { IsDraft reading.phase }
    ensures read { IfOk result (λ next. unless at fault (after_line reading at line) ≡ Ok next) }
    ensures fault { IfFault result (λ found. unless at fault (after_line reading at line) ≡ Err found) }
{
    match fault {
        Some(kind) => Err(Or::Fault(RuleFault { line: at, kind })),
        None => Ok(after_line(alloc, reading, at, line)?),
    }
}

/// One line, whose number is `at`.
fn read_line(
    alloc: Global,
    version: Version,
    reading: Reading,
    at: u32,
    bytes: &[u8],
) -> Result<Reading, Or<RuleFault>>
    requires { IsDraft reading.phase }
    ensures read { IfOk result (λ next. read_line version reading at bytes.now ≡ Ok next) }
    ensures fault { IfFault result (λ fault. read_line version reading at bytes.now ≡ Err fault) }
{
    let lengths = lengths_stand(version, &reading.phase);
    let tokens = split_line(alloc, bytes)?;
    let line = read_line_of(alloc, version, lengths, tokens.as_slice())?;
    let fault = fault_on(&reading, lengths, tokens.as_slice(), &line);
    unless_faulty(alloc, reading, at, line, fault)
}

/// What was read when the text is at its end; `at` is the number of the line after the last.
fn at_end(reading: Reading, at: u32) -> Result<Rules, RuleFault>
    ensures read { IfOk result (λ rules. at_end reading at ≡ Ok rules) }
    ensures fault { IfErr result (λ fault. at_end reading at ≡ Err fault) }
{
    let Reading { rules, phase } = reading;
    match phase {
        Phase::Outside => Ok(rules),
        _ => Err(RuleFault {
            line: at,
            kind: RuleKind::Shape,
        }),
    }
}

/// The lines behind the first.
fn read_lines(alloc: Global, version: Version, text: &[u8]) -> Result<Rules, Or<RuleFault>>
    requires { length text.now ≤ 65536 }
    ensures read { IfOk result (λ rules. read_lines version unread 2 (lines_of text.now) ≡ Ok rules) }
    ensures fault { IfFault result (λ fault. read_lines version unread 2 (lines_of text.now) ≡ Err fault) }
{
    let mut reading = Reading {
        rules: Rules::none(alloc),
        phase: Phase::Outside,
    };
    let mut at: u32 = 2;
    let mut rest = text;
    while !rest.is_empty() {
        let (line, after) = first_line(rest);
        reading = read_line(alloc, version, reading, at, line)?;
        rest = after;
        at += 1;
    }
    match at_end(reading, at) {
        Ok(rules) => Ok(rules),
        Err(fault) => Err(Or::Fault(fault)),
    }
}

fn version_of(line: &[u8]) -> Option<Version>
    ensures { result ≡ version_of line.now }
{
    if line == b"mvrules 1".as_slice() {
        Some(Version::First)
    } else if line == b"mvrules 2".as_slice() {
        Some(Version::Second)
    } else {
        None
    }
}

fn fault_in_header(kind: RuleKind) -> Or<RuleFault>
    ensures { result ≡ Fault (record { line = 1; kind = kind }) }
{
    Or::Fault(RuleFault { line: 1, kind })
}

/// What is read of a text.
fn read_text(alloc: Global, text: &[u8]) -> Result<Rules, Or<RuleFault>>
    ensures rules { IfOk result (λ rules. rules_in text.now ≡ Ok rules) }
    ensures fault { IfFault result (λ fault. rules_in text.now ≡ Err fault) }
{
    if text.len() > LARGEST {
        return Err(fault_in_header(RuleKind::Size));
    }
    if text.is_empty() {
        return Err(fault_in_header(RuleKind::Header));
    }
    let (header, body) = first_line(text);
    match version_of(header) {
        Some(version) => read_lines(alloc, version, body),
        None => Err(fault_in_header(RuleKind::Header)),
    }
}

/// The rules that a text spells, of version 1 or 2 (docs/FORMATS.md, "Rewrite rules"). The fault is the first: that of the
/// first faulty line, and on it the first kind in the order of the table. `Reads` and `Accepts` come only from the check of
/// kept reads. The other error is want of memory. Each guard of a rule is on a byte name of its left side.
pub fn parse_rules(alloc: Global, text: &[u8]) -> Result<Rules, Or<RuleFault>>
    ensures rules { IfOk result (λ rules. rules_in text.now ≡ Ok rules) }
    ensures fault { IfFault result (λ fault. rules_in text.now ≡ Err fault) }
    ensures spelled { IfOk result (λ rules. Spells text.now rules) }
    ensures refused { IsFault result → (rules : List Rule) → Spells text.now rules → ⊥ }
    ensures first { IfFault result (λ fault. IsFirstFaultyLine text.now fault.line) }
    ensures guards { IfOk result (λ rules. list_all has_bound_guards rules ≡ true) }
{
    read_text(alloc, text)
}
