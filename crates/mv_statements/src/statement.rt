//! Statements: what a line says.
ghost use Rattle.std.specs.Prelude.{◌≡◌, ◌↔◌, ◌∷◌, [], IfOk, None};
ghost use Rattle.mv_syntax.specs.declared.types.Limits.{Limits};
ghost use Rattle.mv_statements.specs.declared.statement.Statement.{Statement};
ghost use Rattle.mv_statements.specs.declared.statement.Statement.TheVariants as statements;
ghost use Rattle.mv_statements.specs.declared.statement.Reading.TheVariants.{Known};
ghost use Rattle.mv_statements.specs.Statements.{Spells, behind, constant_code, element, export, func, global, import_, limits, reading_of, segment, signature, known, statement};
ghost use Rattle.mv_statements.specs.Form.{clean};

use crate::fault::TextKind;
use crate::head::{Head, head_named};
use crate::instructions::immediates;
use crate::lists::{indices, local_types, maybe_index, maybe_val_type, val_types};
use crate::words::Words;
use mv_calls::OutOfMemory;
use mv_scan::Token;
use mv_syntax::{
    Code, Element, Export, FuncType, Global as GlobalPart, Import, Instr, Limits, Locals, Segment,
    ValType,
};
use std::alloc::Global;

/// What a line of an assembler text says (docs/FORMATS.md, "Assembler text").
#[derive(Drop)]
pub enum Statement {
    /// `type`: a type of functions.
    Signature(FuncType),
    Import(Import),
    /// A function of this type begins, with these locals.
    Func { ftype: u32, locals: Locals },
    /// The function ends.
    EndFunc,
    Table(Limits),
    Memory(Limits),
    Global(GlobalPart),
    Export(Export),
    Start(u32),
    /// `elem`
    Element(Element),
    /// `data`
    Segment(Segment),
    Instr(Instr),
}

/// What the words of a line are read as.
#[derive(Drop)]
pub enum Reading {
    /// The first word says nothing.
    Unknown,
    /// A statement with its first kind of fault among Word, Count, Quote and Number. Where it has one, values that have no
    /// word of their form are zero, empty or the first of their kind.
    Known {
        statement: Statement,
        fault: Option<TextKind>,
    },
}

/// The code of a constant.
fn constant_code(alloc: Global, vtype: ValType, value: u64) -> Result<Code, OutOfMemory>
    ensures { IfOk result (λ code. code ≡ constant_code vtype value) }
{
    let mut code = Vec::new(alloc);
    code.push(Instr::Const { vtype, value })?;
    code.push(Instr::End)?;
    Ok(Code::from_vec(code))
}

/// `type P P -> R`
#[tactic(auto, unfolding(crate::specs::Statements::signature))]
fn signature(alloc: Global, words: &mut Words<'_>) -> Result<Statement, OutOfMemory>
    ensures { IfOk result (λ made. (made, words.new) ≡ signature.reads words.old) }
{
    let count = words.before_arrow();
    let params = val_types(alloc, count, words)?;
    let _arrow = words.arrow();
    let result = maybe_val_type(words);
    if count > 1_000 {
        words.refuse(TextKind::Count);
    }
    Ok(Statement::Signature(FuncType { params, result }))
}

/// `import "m" "n" T`
#[tactic(auto, unfolding(crate::specs::Statements::import_))]
fn import(alloc: Global, words: &mut Words<'_>) -> Result<Statement, OutOfMemory>
    ensures { IfOk result (λ made. (made, words.new) ≡ import_.reads words.old) }
{
    let module = words.name(alloc)?;
    let name = words.name(alloc)?;
    let ftype = words.index();
    Ok(Statement::Import(Import {
        module,
        name,
        ftype,
    }))
}

/// `func T` and types
#[tactic(auto, unfolding(crate::specs::Statements::func))]
fn func(alloc: Global, words: &mut Words<'_>) -> Result<Statement, OutOfMemory>
    ensures { IfOk result (λ made. (made, words.new) ≡ func.reads words.old) }
{
    let ftype = words.index();
    let count = words.left();
    let locals = local_types(alloc, count, words)?;
    if locals.len() > 10_000 {
        words.refuse(TextKind::Count);
    }
    Ok(Statement::Func { ftype, locals })
}

/// `MIN [MAX]`
#[tactic(auto, unfolding(crate::specs::Statements::limits))]
fn limits(least: u32, words: &mut Words<'_>) -> Limits
    ensures { (made : Limits → Statement) → (made result, words.new) ≡ (limits least made).reads words.old }
{
    let min = words.number(least);
    let max = maybe_index(words);
    Limits { min, max }
}

/// `global t const N`, `global t var N`
#[tactic(auto, unfolding(crate::specs::Statements::global))]
fn global(alloc: Global, words: &mut Words<'_>) -> Result<Statement, OutOfMemory>
    ensures { IfOk result (λ made. (made, words.new) ≡ global.reads words.old) }
{
    let vtype = words.val_type();
    let mutable = words.mutable();
    let value = words.constant(vtype);
    Ok(Statement::Global(GlobalPart {
        vtype,
        mutable,
        init: constant_code(alloc, vtype, value)?,
    }))
}

/// `export "n" func N`
#[tactic(auto, unfolding(crate::specs::Statements::export))]
fn export(alloc: Global, words: &mut Words<'_>) -> Result<Statement, OutOfMemory>
    ensures { IfOk result (λ made. (made, words.new) ≡ export.reads words.old) }
{
    let name = words.name(alloc)?;
    let kind = words.kind();
    let index = words.index();
    Ok(Statement::Export(Export { name, kind, index }))
}

/// `elem O N N ..`
#[tactic(auto, unfolding(crate::specs::Statements::element))]
fn element(alloc: Global, words: &mut Words<'_>) -> Result<Statement, OutOfMemory>
    ensures { IfOk result (λ made. (made, words.new) ≡ element.reads words.old) }
{
    let offset = words.constant(ValType::I32);
    let count = words.left();
    let funcs = indices(alloc, count, words)?;
    Ok(Statement::Element(Element {
        offset: constant_code(alloc, ValType::I32, offset)?,
        funcs,
    }))
}

/// `data O "bytes"`
#[tactic(auto, unfolding(crate::specs::Statements::segment))]
fn segment(alloc: Global, words: &mut Words<'_>) -> Result<Statement, OutOfMemory>
    ensures { IfOk result (λ made. (made, words.new) ≡ segment.reads words.old) }
{
    let offset = words.constant(ValType::I32);
    let bytes = words.text(alloc)?;
    Ok(Statement::Segment(Segment {
        offset: constant_code(alloc, ValType::I32, offset)?,
        bytes,
    }))
}

/// What stands behind the first word.
#[tactic(auto, unfolding(crate::specs::Statements::behind, crate::specs::Statements::start, crate::specs::Statements::instruction))]
fn behind(alloc: Global, head: Head, words: &mut Words<'_>) -> Result<Statement, OutOfMemory>
    ensures { IfOk result (λ made. (made, words.new) ≡ (behind head).reads words.old) }
{
    match head {
        Head::Signature => signature(alloc, words),
        Head::Import => import(alloc, words),
        Head::Func => func(alloc, words),
        Head::EndFunc => Ok(Statement::EndFunc),
        Head::Table => Ok(Statement::Table(limits(65_536, words))),
        Head::Memory => Ok(Statement::Memory(limits(1_024, words))),
        Head::Global => global(alloc, words),
        Head::Export => export(alloc, words),
        Head::Start => Ok(Statement::Start(words.index())),
        Head::Element => element(alloc, words),
        Head::Segment => segment(alloc, words),
        Head::Instr(instr) => Ok(Statement::Instr(immediates(alloc, instr, words)?)),
    }
}

/// The statement of a line with this first word.
#[tactic(auto, unfolding(crate::specs::Statements::statement, crate::specs::Forms::last))]
fn read_behind(alloc: Global, head: Head, rest: &[Token]) -> Result<Reading, OutOfMemory>
    ensures { IfOk result (λ reading. reading ≡ known ((statement head).reads (clean rest.now))) }
{
    let mut words = Words::new(rest);
    let statement = behind(alloc, head, &mut words)?;
    if words.left() > 0 {
        words.refuse(TextKind::Count);
    }
    Ok(Reading::Known {
        statement,
        fault: words.fault(),
    })
}

fn read(alloc: Global, words: &[Token]) -> Result<Reading, OutOfMemory>
    ensures { IfOk result (λ reading. reading ≡ reading_of words.now) }
{
    match words {
        [Token::Plain(word), rest @ ..] => match head_named(alloc, word.slice()) {
            Some(head) => read_behind(alloc, head, rest),
            None => Ok(Reading::Unknown),
        },
        _ => Ok(Reading::Unknown),
    }
}

/// The statement that the words of a line spell, or with the first kind of fault among Word, Count, Quote and Number that
/// they have; no words are read as Unknown. A statement is read without a fault exactly where the words spell it. The error
/// is want of memory.
pub fn read_statement(alloc: Global, words: &[Token]) -> Result<Reading, OutOfMemory>
    ensures exact { IfOk result (λ reading. reading ≡ reading_of words.now) }
    ensures spelled { IfOk result (λ reading. (s : Statement) → Spells s words.now ↔ (reading ≡ Known s None)) }
{
    read(alloc, words)
}
