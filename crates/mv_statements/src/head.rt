//! The words that lines begin with.
ghost use Rattle.std.specs.Prelude.{◌≡◌};
ghost use Rattle.mv_statements.specs.Mnemonics.{lookup};
ghost use Rattle.mv_statements.specs.Statements.{directive_words, head_named};

use crate::mnemonics::instr_named;
use mv_syntax::Instr;
use std::alloc::Global;

/// What the first word of a line says.
#[derive(Drop)]
pub enum Head {
    /// `type`
    Signature,
    Import,
    Func,
    EndFunc,
    Table,
    Memory,
    Global,
    Export,
    Start,
    /// `elem`
    Element,
    /// `data`
    Segment,
    /// An instruction, whose immediates follow; those that it has stand for any.
    Instr(Instr),
}

fn directive_named(word: &[u8]) -> Option<Head>
    ensures { result ≡ lookup word.now directive_words }
{
    if word == b"type".as_slice() {
        Some(Head::Signature)
    } else if word == b"import".as_slice() {
        Some(Head::Import)
    } else if word == b"func".as_slice() {
        Some(Head::Func)
    } else if word == b"endfunc".as_slice() {
        Some(Head::EndFunc)
    } else if word == b"table".as_slice() {
        Some(Head::Table)
    } else if word == b"memory".as_slice() {
        Some(Head::Memory)
    } else if word == b"global".as_slice() {
        Some(Head::Global)
    } else if word == b"export".as_slice() {
        Some(Head::Export)
    } else if word == b"start".as_slice() {
        Some(Head::Start)
    } else if word == b"elem".as_slice() {
        Some(Head::Element)
    } else if word == b"data".as_slice() {
        Some(Head::Segment)
    } else {
        None
    }
}

/// What the first word of a line says, if it says anything.
pub fn head_named(alloc: Global, word: &[u8]) -> Option<Head>
    ensures { result ≡ head_named word.now }
{
    if let Some(head) = directive_named(word) {
        return Some(head);
    }
    match instr_named(alloc, word) {
        Some(instr) => Some(Head::Instr(instr)),
        None => None,
    }
}
