//! Modules.

ghost use Rattle.mv_syntax.specs.Kept.{Keeps};
ghost use Rattle.mv_syntax.specs.Counted.{AreCounted};

use crate::lists::{
    Code, Elements, Exports, FuncTypes, Funcs, Globals, Imports, Indices, Segments,
};
use crate::locals::Locals;
use crate::ops::ValType;
use crate::types::Limits;
use mv_calls::Bytes;
use std::marker::Model;

/// An imported function.
#[derive(Debug, Drop)]
pub struct Import {
    pub module: Bytes,
    pub name: Bytes,
    pub ftype: u32,
}

/// A function with a body.
#[derive(Debug, Drop)]
pub struct Func {
    pub ftype: u32,
    pub locals: Locals,
    pub code: Code,
}

#[derive(Debug, Drop)]
pub struct Global {
    pub vtype: ValType,
    pub mutable: bool,
    pub init: Code,
}

#[derive(Debug, Drop)]
pub struct Export {
    pub name: Bytes,
    pub kind: u8,
    pub index: u32,
}

/// Functions that the table has from an offset on.
#[derive(Debug, Drop)]
pub struct Element {
    pub offset: Code,
    pub funcs: Indices,
}

/// Bytes that the memory has from an offset on.
#[derive(Debug, Drop)]
pub struct Segment {
    pub offset: Code,
    pub bytes: Bytes,
}

/// A module, which some bytes spell, were there no limit on their length.
#[derive(Debug, Drop)]
pub struct Module {
    pub types: FuncTypes,
    pub imports: Imports,
    pub funcs: Funcs,
    pub table: Option<Limits>,
    pub memory: Option<Limits>,
    pub globals: Globals,
    pub exports: Exports,
    pub start: Option<u32>,
    pub elements: Elements,
    pub segments: Segments,
}

impl Model for Module {
    ghost use Rattle.mv_syntax.specs.Sections.{Parts};

    ghost Value = { Parts };

    ghost use Rattle.mv_syntax.specs.Modules.{HasSpelling};

    ghost view = { λ m. record { types = m.types; imports = m.imports; funcs = m.funcs; table = m.table; memory = m.memory; globals = m.globals; exports = m.exports; start = m.start; elements = m.elements; segments = m.segments } };

    ghost invariant = { λ m. HasSpelling (record { types = m.types; imports = m.imports; funcs = m.funcs; table = m.table; memory = m.memory; globals = m.globals; exports = m.exports; start = m.start; elements = m.elements; segments = m.segments }) };
}

impl Module {
    /// What every module keeps, since some bytes spell it: each body and constant is closed, and each of its
    /// instructions could be spelled; names are UTF-8, kinds of exports at most 3; a type has at most 1,000 parameters,
    /// a function at most 10,000 locals of its own, a table at least at most 65,536 entries, a memory 1,024 pages. The
    /// function does nothing; it carries the law.
    pub fn keeps(&self)
        ensures { Keeps self.now }
    {
        // To look at a part brings up what the type keeps.
        let _start = self.start;
    }

    /// Every list of a module has fewer than 2^32 items, and so has the code of each body, since some bytes spell it. The
    /// function does nothing; it carries the law.
    pub fn counted(&self)
        ensures { AreCounted self.now }
    {
        // To look at a part brings up what the type keeps.
        let _start = self.start;
    }
}
