//! What a policy says of a console line.
ghost use Rattle.std.specs.Prelude.{◌≡◌, ◌+◌, ◌^◌, ◌<◌, ◌≤◌, ◌==◌, IfSome, Some, drop, length, position};
ghost use Rattle.std.specs.List.{list_any};
ghost use Rattle.std.specs.Option.{option_map};
ghost use Rattle.mv_policy.specs.PolicyText.{which_text};
ghost use Rattle.mv_policy.specs.Decided.{allows, applies, at_space, by_rule, by_token, covers, decided, first_word, is_for, knows, ruled};

use crate::line::{PolicyLine, Which, Who};
use crate::policy::Policy;

/// What a policy says of a console line.
#[derive(Clone, Copy, PartialEq, Eq, Debug)]
pub enum Decision {
    /// The order that begins at the byte `from` of the line is allowed by the rule on this line of the policy.
    Allowed { from: usize, rule: u32 },
    /// The line is denied by the rule on this line of the policy, or by none, which is 0.
    Denied { rule: u32 },
}

/// The word of some orders as a policy writes it.
fn which_text(which: Which) -> &'static [u8]
    ensures { result.now ≡ which_text which }
{
    match which {
        Which::Any => b"*".as_slice(),
        Which::Update => b"update".as_slice(),
        Which::Promote => b"promote".as_slice(),
        Which::Discard => b"discard".as_slice(),
        Which::Finish => b"finish".as_slice(),
        Which::Back => b"back".as_slice(),
        Which::Halt => b"halt".as_slice(),
        Which::Status => b"status".as_slice(),
    }
}

/// Where the first space stands.
fn space_in(bytes: &[u8]) -> Option<usize>
    ensures place { result ≡ position (λ b. b == 32) bytes.now }
    ensures within { IfSome result (λ place. place < length bytes.now) }
{
    bytes.iter().position(|b| *b == b' ')
}

/// The bytes behind the first.
fn behind_first(bytes: &[u8]) -> &[u8]
    ensures { result.now ≡ drop 1 bytes.now }
{
    match bytes {
        [_, after @ ..] => after,
        [] => bytes,
    }
}

/// What stands before the first space, and what behind it, if there is one.
fn at_space(bytes: &[u8]) -> Option<(&[u8], &[u8])>
    ensures { option_map (λ said. (said.0.now, said.1.now)) result ≡ at_space bytes.now }
{
    match space_in(bytes) {
        Some(place) => {
            let (front, behind) = bytes.split_at(place);
            Some((front, behind_first(behind)))
        }
        None => None,
    }
}

/// The first word of an order.
fn first_word(order: &[u8]) -> &[u8]
    ensures { result.now ≡ first_word order.now }
{
    match space_in(order) {
        Some(place) => {
            let (word, _) = order.split_at(place);
            word
        }
        None => order,
    }
}

/// Whether the line names this user with this token.
fn knows(name: &[u8], token: &[u8], line: &PolicyLine) -> bool
    ensures { result ≡ knows name.now token.now line.now }
{
    match line {
        PolicyLine::User {
            name: other,
            token: key,
        } => other.slice() == name && key.slice() == token,
        _ => false,
    }
}

fn is_for(name: &[u8], who: &Who) -> bool
    ensures { result ≡ is_for name.now who.now }
{
    match who {
        Who::Anyone => true,
        Who::Named(other) => other.slice() == name,
    }
}

fn covers(which: Which, word: &[u8]) -> bool
    ensures { result ≡ covers which word.now }
{
    match which {
        Which::Any => true,
        _ => which_text(which) == word,
    }
}

/// Whether the line is a rule on this user's orders of this word.
fn applies(name: &[u8], word: &[u8], line: &PolicyLine) -> bool
    ensures { result ≡ applies name.now word.now line.now }
{
    match line {
        PolicyLine::Allow { who, which } => is_for(name, who) && covers(*which, word),
        PolicyLine::Deny { who, which } => is_for(name, who) && covers(*which, word),
        _ => false,
    }
}

fn allows(line: &PolicyLine) -> bool
    ensures { result ≡ allows line.now }
{
    matches!(line, PolicyLine::Allow { .. })
}

/// Where the first rule stands that applies.
fn rule_in(lines: &[PolicyLine], name: &[u8], word: &[u8]) -> Option<usize>
    ensures place { result ≡ position (applies name.now word.now) lines.now }
    ensures within { IfSome result (λ place. place < length lines.now) }
{
    lines.iter().position(|line| applies(name, word, line))
}

/// What the rule at this place says, if there is one.
fn by_rule(lines: &[PolicyLine], from: usize, place: Option<usize>) -> Decision
    requires few { length lines.now ≤ 999 }
    requires within { IfSome place (λ n. n < length lines.now) }
    ensures { result ≡ by_rule lines.now from place }
{
    match place {
        Some(place) => ruled(from, place as u32 + 2, &lines[place]),
        None => Decision::Denied { rule: 0 },
    }
}

/// What this rule says.
fn ruled(from: usize, rule: u32, line: &PolicyLine) -> Decision
    ensures { result ≡ ruled from rule (Some line.now) }
{
    if allows(line) {
        Decision::Allowed { from, rule }
    } else {
        Decision::Denied { rule }
    }
}

/// Whether a user has this name and this token.
fn is_known(lines: &[PolicyLine], name: &[u8], token: &[u8]) -> bool
    ensures { result ≡ list_any (knows name.now token.now) lines.now }
{
    lines.iter().any(|line| knows(name, token, line))
}

/// What is said of a line that begins with this name.
fn by_token(lines: &[PolicyLine], name: &[u8], behind: &[u8]) -> Decision
    requires few { length lines.now ≤ 999 }
    requires short { length name.now + length behind.now + 1 < 2 ^ 64 }
    ensures { result ≡ by_token lines.now name.now (at_space behind.now) }
{
    match at_space(behind) {
        Some((token, order)) => {
            if is_known(lines, name, token) {
                let from = name.len() + token.len() + 2;
                by_rule(lines, from, rule_in(lines, name, first_word(order)))
            } else {
                Decision::Denied { rule: 0 }
            }
        }
        None => Decision::Denied { rule: 0 },
    }
}

/// What the policy says of a console line, `NAME TOKEN ORDER`: ORDER is all behind the second space. It is denied by no rule
/// (0) where there are no two spaces, or no user has this name and this token. Else the first `allow` or `deny` decides that is
/// on this user or anyone, and on ORDER's first word or each; without one it is denied by no rule.
pub fn decide(policy: &Policy, line: &[u8]) -> Decision
    ensures { result ≡ decided policy.now line.now }
{
    match at_space(line) {
        Some((name, behind)) => by_token(policy.lines.as_slice(), name, behind),
        None => Decision::Denied { rule: 0 },
    }
}
