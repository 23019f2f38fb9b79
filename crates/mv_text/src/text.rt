//! Texts: line by line, to a module or the first fault.
ghost use Rattle.std.specs.Prelude.{◌≡◌, ◌≤◌, ◌^◌, ◌↔◌, Err, IfErr, IfOk, Ok, length};
ghost use Rattle.mv_calls.specs.Or.{IfFault, IsFault};
ghost use Rattle.mv_scan.specs.Lines.{lines_of};
ghost use Rattle.mv_syntax.specs.Modules.{HasSpelling};
ghost use Rattle.mv_syntax.specs.Sections.{Parts};
ghost use Rattle.mv_text.specs.Comments.{words_on};
ghost use Rattle.mv_text.specs.Assembly.{assembled, assembled_from, finished, nothing, step};
ghost use Rattle.mv_text.specs.Grammar.{IsFirstFaultyLine, Spells};

use crate::comments::content_of;
use crate::draft::Draft;
use crate::state::{State, step};
use mv_calls::Or;
use mv_scan::{first_line, split_words};
use mv_statements::{TextFault, TextKind};
use mv_syntax::{Elements, Exports, FuncTypes, Funcs, Globals, Imports, Module, Segments};
use std::alloc::Global;

/// The most bytes of a text.
const MOST_BYTES: usize = 1 << 24;

/// The state behind a line.
fn read_line(alloc: Global, state: State, line: &[u8]) -> Result<State, Or<TextKind>>
    ensures placed { IfOk result (λ next. step state (words_on line.now) ≡ Ok next) }
    ensures fault { IfFault result (λ kind. step state (words_on line.now) ≡ Err kind) }
{
    let words = split_words(alloc, content_of(line))?;
    step(alloc, state, words.as_slice())
}

/// What was read when the text is at its end; `at` is the number of the line after the last.
fn finish(state: State, at: u32) -> Result<Draft, TextFault>
    ensures parts { IfOk result (λ parts. finished state at ≡ Ok parts) }
    ensures fault { IfErr result (λ fault. finished state at ≡ Err fault) }
{
    let State { parts, inside } = state;
    if inside.is_some() {
        return Err(TextFault {
            line: at,
            kind: TextKind::Unended,
        });
    }
    Ok(parts)
}

/// The lines of a text.
fn read_lines(alloc: Global, text: &[u8]) -> Result<Draft, Or<TextFault>>
    requires { length text.now ≤ 2 ^ 24 }
    ensures parts { IfOk result (λ parts. assembled_from nothing 1 (lines_of text.now) ≡ Ok parts) }
    ensures fault { IfFault result (λ fault. assembled_from nothing 1 (lines_of text.now) ≡ Err fault) }
{
    let mut state = State::new(alloc);
    let mut at: u32 = 1;
    let mut rest = text;
    while !rest.is_empty() {
        let (line, after) = first_line(rest);
        match read_line(alloc, state, line) {
            Ok(next) => state = next,
            Err(Or::Fault(kind)) => return Err(Or::Fault(TextFault { line: at, kind })),
            Err(Or::OutOfMemory) => return Err(Or::OutOfMemory),
        }
        rest = after;
        at += 1;
    }
    match finish(state, at) {
        Ok(parts) => Ok(parts),
        Err(fault) => Err(Or::Fault(fault)),
    }
}

/// The parts that a text spells, or the first fault.
fn read_text(alloc: Global, text: &[u8]) -> Result<Draft, Or<TextFault>>
    ensures parts { IfOk result (λ parts. assembled text.now ≡ Ok parts) }
    ensures fault { IfFault result (λ fault. assembled text.now ≡ Err fault) }
{
    if text.len() > MOST_BYTES {
        return Err(Or::Fault(TextFault {
            line: 1,
            kind: TextKind::Size,
        }));
    }
    read_lines(alloc, text)
}

/// The module of these parts.
fn module_of(parts: Draft) -> Module
    requires { HasSpelling parts }
    ensures { result ≡ parts }
{
    let Draft {
        types,
        imports,
        funcs,
        table,
        memory,
        globals,
        exports,
        start,
        elements,
        segments,
    } = parts;
    Module {
        types: FuncTypes::from_vec(types),
        imports: Imports::from_vec(imports),
        funcs: Funcs::from_vec(funcs),
        table,
        memory,
        globals: Globals::from_vec(globals),
        exports: Exports::from_vec(exports),
        start,
        elements: Elements::from_vec(elements),
        segments: Segments::from_vec(segments),
    }
}

fn read_module(alloc: Global, text: &[u8]) -> Result<Module, Or<TextFault>>
    ensures module { IfOk result (λ m. assembled text.now ≡ Ok m) }
    ensures fault { IfFault result (λ fault. assembled text.now ≡ Err fault) }
{
    let parts = read_text(alloc, text)?;
    Ok(module_of(parts))
}

/// The module that an assembler text spells (docs/FORMATS.md, "Assembler text"), or the first fault: that of the first faulty
/// line, and on it the first kind in the order of the table. The other error is want of memory.
pub fn assemble(alloc: Global, text: &[u8]) -> Result<Module, Or<TextFault>>
    ensures module { IfOk result (λ m. assembled text.now ≡ Ok m) }
    ensures fault { IfFault result (λ fault. assembled text.now ≡ Err fault) }
    ensures spelled { IfOk result (λ m. (p : Parts) → Spells text.now p ↔ (p ≡ m)) }
    ensures refused { IsFault result → (p : Parts) → Spells text.now p → ⊥ }
    ensures first { IfFault result (λ fault. IsFirstFaultyLine text.now fault.line) }
{
    read_module(alloc, text)
}
