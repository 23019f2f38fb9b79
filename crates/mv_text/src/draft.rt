//! Parts of a module.
ghost use Rattle.std.specs.Prelude.{◌≡◌, OnOk};
ghost use Rattle.mv_syntax.specs.Sections.{nothing_yet};
ghost use Rattle.mv_text.specs.Assembly.{added, with_function};

use mv_calls::OutOfMemory;
use mv_statements::Statement;
use mv_syntax::{Element, Export, Func, FuncType, Global as GlobalPart, Import, Limits, Segment};
use std::alloc::Global;
use std::marker::Model;

/// The parts of a module, as an assembler text spells them.
#[derive(Drop)]
pub struct Draft {
    pub types: Vec<FuncType>,
    pub imports: Vec<Import>,
    pub funcs: Vec<Func>,
    pub table: Option<Limits>,
    pub memory: Option<Limits>,
    pub globals: Vec<GlobalPart>,
    pub exports: Vec<Export>,
    pub start: Option<u32>,
    pub elements: Vec<Element>,
    pub segments: Vec<Segment>,
}

impl Model for Draft {
    ghost use Rattle.mv_syntax.specs.Sections.{Parts};

    ghost Value = { Parts };

    ghost view = { λ d. record { types = d.types.items; imports = d.imports.items; funcs = d.funcs.items; table = d.table; memory = d.memory; globals = d.globals.items; exports = d.exports.items; start = d.start; elements = d.elements.items; segments = d.segments.items } };
}

impl Draft {
    /// No part yet.
    pub fn new(alloc: Global) -> Draft
        ensures { result ≡ nothing_yet.parts }
    {
        Draft {
            types: Vec::new(alloc),
            imports: Vec::new(alloc),
            funcs: Vec::new(alloc),
            table: None,
            memory: None,
            globals: Vec::new(alloc),
            exports: Vec::new(alloc),
            start: None,
            elements: Vec::new(alloc),
            segments: Vec::new(alloc),
        }
    }

    /// What a directive adds.
    pub fn add(&mut self, statement: Statement) -> Result<(), OutOfMemory>
        ensures { OnOk result (self.new ≡ added statement self.old) }
    {
        match statement {
            Statement::Signature(ftype) => self.types.push(ftype)?,
            Statement::Import(import) => self.imports.push(import)?,
            Statement::Table(limits) => self.table = Some(limits),
            Statement::Memory(limits) => self.memory = Some(limits),
            Statement::Global(global) => self.globals.push(global)?,
            Statement::Export(export) => self.exports.push(export)?,
            Statement::Start(index) => self.start = Some(index),
            Statement::Element(element) => self.elements.push(element)?,
            Statement::Segment(segment) => self.segments.push(segment)?,
            Statement::Func {
                ftype: _ftype,
                locals: _locals,
            } => {}
            Statement::EndFunc => {}
            Statement::Instr(_instr) => {}
        }
        Ok(())
    }

    /// One function more.
    pub fn add_function(&mut self, func: Func) -> Result<(), OutOfMemory>
        ensures { OnOk result (self.new ≡ with_function func self.old) }
    {
        self.funcs.push(func)?;
        Ok(())
    }
}
