//! What a line does.
ghost use Rattle.std.specs.Prelude.{◌≡◌, IfOk, Ok, Err};
ghost use Rattle.mv_calls.specs.Or.{IfFault};
ghost use Rattle.mv_text.specs.Assembly.{end_func, is_misplaced, is_misplaced_inside, is_misplaced_outside, judged, kind_before, nothing, place, place_inside, place_outside, step};

use crate::draft::Draft;
use crate::unended::Unended;
use mv_calls::Or;
use mv_scan::Token;
use mv_statements::{Reading, Statement, TextKind, read_statement};
use std::alloc::Global;

/// What was read so far.
#[derive(Drop)]
pub struct State {
    pub parts: Draft,
    /// The function in which the line stands.
    pub inside: Option<Unended>,
}

/// A directive that may not stand outside functions.
fn is_misplaced_outside(parts: &Draft, statement: &Statement) -> bool
    ensures { result ≡ is_misplaced_outside parts.now statement.now }
{
    match statement {
        Statement::Instr(_) => true,
        Statement::EndFunc => true,
        Statement::Table(_) => parts.table.is_some(),
        Statement::Memory(_) => parts.memory.is_some(),
        Statement::Start(_) => parts.start.is_some(),
        _ => false,
    }
}

fn is_misplaced_inside(statement: &Statement) -> bool
    ensures { result ≡ is_misplaced_inside statement.now }
{
    match statement {
        Statement::Instr(_) => false,
        Statement::EndFunc => false,
        _ => true,
    }
}

/// Whether a statement may not stand here.
fn is_misplaced(state: &State, statement: &Statement) -> bool
    ensures { result ≡ is_misplaced state.now statement.now }
{
    match state.inside {
        Some(_) => is_misplaced_inside(statement),
        None => is_misplaced_outside(&state.parts, statement),
    }
}

/// The first kind of those that show before blocks are looked at.
fn kind_before(misplaced: bool, fault: Option<TextKind>) -> Option<TextKind>
    ensures { result ≡ kind_before misplaced fault }
{
    match fault {
        Some(TextKind::Word) => Some(TextKind::Word),
        _ => {
            if misplaced {
                Some(TextKind::Place)
            } else {
                fault
            }
        }
    }
}

fn place_outside(alloc: Global, parts: Draft, statement: Statement) -> Result<State, Or<TextKind>>
    ensures placed { IfOk result (λ next. place_outside parts statement ≡ Ok next) }
    ensures fault { IfFault result (λ kind. place_outside parts statement ≡ Err kind) }
{
    match statement {
        Statement::Func { ftype, locals } => Ok(State {
            parts,
            inside: Some(Unended::new(alloc, ftype, locals)),
        }),
        statement => {
            let mut parts = parts;
            parts.add(statement)?;
            Ok(State {
                parts,
                inside: None,
            })
        }
    }
}

fn place_inside(parts: Draft, func: Unended, statement: Statement) -> Result<State, Or<TextKind>>
    ensures placed { IfOk result (λ next. place_inside parts func statement ≡ Ok next) }
    ensures fault { IfFault result (λ kind. place_inside parts func statement ≡ Err kind) }
{
    match statement {
        Statement::Instr(instr) => Ok(State {
            parts,
            inside: Some(func.add(instr)?),
        }),
        Statement::EndFunc => end_func(parts, func),
        _ => Err(Or::Fault(TextKind::Place)),
    }
}

/// `endfunc`
fn end_func(parts: Draft, func: Unended) -> Result<State, Or<TextKind>>
    ensures placed { IfOk result (λ next. end_func parts func func.opens ≡ Ok next) }
    ensures fault { IfFault result (λ kind. end_func parts func func.opens ≡ Err kind) }
{
    if !func.is_flat() {
        return Err(Or::Fault(TextKind::Nest));
    }
    let mut parts = parts;
    parts.add_function(func.end()?)?;
    Ok(State {
        parts,
        inside: None,
    })
}

/// The state behind a statement that may stand here.
fn place(alloc: Global, state: State, statement: Statement) -> Result<State, Or<TextKind>>
    ensures placed { IfOk result (λ next. place state statement ≡ Ok next) }
    ensures fault { IfFault result (λ kind. place state statement ≡ Err kind) }
{
    let State { parts, inside } = state;
    match inside {
        None => place_outside(alloc, parts, statement),
        Some(func) => place_inside(parts, func, statement),
    }
}

/// The state behind a line that was read as this.
fn judge(alloc: Global, state: State, reading: Reading) -> Result<State, Or<TextKind>>
    ensures placed { IfOk result (λ next. judged state reading ≡ Ok next) }
    ensures fault { IfFault result (λ kind. judged state reading ≡ Err kind) }
{
    match reading {
        Reading::Unknown => Err(Or::Fault(TextKind::Word)),
        Reading::Known { statement, fault } => {
            match kind_before(is_misplaced(&state, &statement), fault) {
                Some(kind) => Err(Or::Fault(kind)),
                None => place(alloc, state, statement),
            }
        }
    }
}

impl State {
    /// Nothing was read.
    pub fn new(alloc: Global) -> State
        ensures { result ≡ nothing }
    {
        State {
            parts: Draft::new(alloc),
            inside: None,
        }
    }
}

/// The state behind a line of these words, or the first kind of fault that it has.
pub fn step(alloc: Global, state: State, words: &[Token]) -> Result<State, Or<TextKind>>
    ensures placed { IfOk result (λ next. step state words.now ≡ Ok next) }
    ensures fault { IfFault result (λ kind. step state words.now ≡ Err kind) }
{
    match words {
        [] => Ok(state),
        _ => {
            let reading = read_statement(alloc, words)?;
            judge(alloc, state, reading)
        }
    }
}
