//! Lists, which contracts see as such.
ghost use Rattle.std.specs.Prelude.{◌≡◌};

use crate::instr::Instr;
use crate::module::{Element, Export, Func, Global, Import, Segment};
use crate::ops::ValType;
use crate::types::FuncType;
use std::marker::Model;

/// A list of types of functions.
#[derive(Debug, Drop)]
pub struct FuncTypes {
    items: Vec<FuncType>,
}

impl Model for FuncTypes {
    ghost use Rattle.std.specs.Prelude.{List};
    ghost use Rattle.mv_syntax.specs.declared.types.FuncType.{FuncType};

    ghost Value = { List FuncType };

    ghost view = { λ a. a.items.items };
}

impl FuncTypes {
    /// The list of these items.
    pub fn from_vec(items: Vec<FuncType>) -> FuncTypes
        ensures { result ≡ items.items }
    {
        FuncTypes { items }
    }

    /// The items.
    pub fn slice(&self) -> &[FuncType]
        ensures { result.now ≡ self.now }
    {
        self.items.as_slice()
    }

    /// The items, as a vector.
    pub fn into_vec(self) -> Vec<FuncType>
        ensures { result.items ≡ self }
    {
        let FuncTypes { items } = self;
        items
    }
}

/// A list of imported functions.
#[derive(Debug, Drop)]
pub struct Imports {
    items: Vec<Import>,
}

impl Model for Imports {
    ghost use Rattle.std.specs.Prelude.{List};
    ghost use Rattle.mv_syntax.specs.declared.module.Import.{Import};

    ghost Value = { List Import };

    ghost view = { λ a. a.items.items };
}

impl Imports {
    /// The list of these items.
    pub fn from_vec(items: Vec<Import>) -> Imports
        ensures { result ≡ items.items }
    {
        Imports { items }
    }

    /// The items.
    pub fn slice(&self) -> &[Import]
        ensures { result.now ≡ self.now }
    {
        self.items.as_slice()
    }

    /// The items, as a vector.
    pub fn into_vec(self) -> Vec<Import>
        ensures { result.items ≡ self }
    {
        let Imports { items } = self;
        items
    }
}

/// A list of functions.
#[derive(Debug, Drop)]
pub struct Funcs {
    items: Vec<Func>,
}

impl Model for Funcs {
    ghost use Rattle.std.specs.Prelude.{List};
    ghost use Rattle.mv_syntax.specs.declared.module.Func.{Func};

    ghost Value = { List Func };

    ghost view = { λ a. a.items.items };
}

impl Funcs {
    /// The list of these items.
    pub fn from_vec(items: Vec<Func>) -> Funcs
        ensures { result ≡ items.items }
    {
        Funcs { items }
    }

    /// The items.
    pub fn slice(&self) -> &[Func]
        ensures { result.now ≡ self.now }
    {
        self.items.as_slice()
    }

    /// The items, as a vector.
    pub fn into_vec(self) -> Vec<Func>
        ensures { result.items ≡ self }
    {
        let Funcs { items } = self;
        items
    }
}

/// A list of globals.
#[derive(Debug, Drop)]
pub struct Globals {
    items: Vec<Global>,
}

impl Model for Globals {
    ghost use Rattle.std.specs.Prelude.{List};
    ghost use Rattle.mv_syntax.specs.declared.module.Global.{Global};

    ghost Value = { List Global };

    ghost view = { λ a. a.items.items };
}

impl Globals {
    /// The list of these items.
    pub fn from_vec(items: Vec<Global>) -> Globals
        ensures { result ≡ items.items }
    {
        Globals { items }
    }

    /// The items.
    pub fn slice(&self) -> &[Global]
        ensures { result.now ≡ self.now }
    {
        self.items.as_slice()
    }

    /// The items, as a vector.
    pub fn into_vec(self) -> Vec<Global>
        ensures { result.items ≡ self }
    {
        let Globals { items } = self;
        items
    }
}

/// A list of exports.
#[derive(Debug, Drop)]
pub struct Exports {
    items: Vec<Export>,
}

impl Model for Exports {
    ghost use Rattle.std.specs.Prelude.{List};
    ghost use Rattle.mv_syntax.specs.declared.module.Export.{Export};

    ghost Value = { List Export };

    ghost view = { λ a. a.items.items };
}

impl Exports {
    /// The list of these items.
    pub fn from_vec(items: Vec<Export>) -> Exports
        ensures { result ≡ items.items }
    {
        Exports { items }
    }

    /// The items.
    pub fn slice(&self) -> &[Export]
        ensures { result.now ≡ self.now }
    {
        self.items.as_slice()
    }

    /// The items, as a vector.
    pub fn into_vec(self) -> Vec<Export>
        ensures { result.items ≡ self }
    {
        let Exports { items } = self;
        items
    }
}

/// A list of element segments.
#[derive(Debug, Drop)]
pub struct Elements {
    items: Vec<Element>,
}

impl Model for Elements {
    ghost use Rattle.std.specs.Prelude.{List};
    ghost use Rattle.mv_syntax.specs.declared.module.Element.{Element};

    ghost Value = { List Element };

    ghost view = { λ a. a.items.items };
}

impl Elements {
    /// The list of these items.
    pub fn from_vec(items: Vec<Element>) -> Elements
        ensures { result ≡ items.items }
    {
        Elements { items }
    }

    /// The items.
    pub fn slice(&self) -> &[Element]
        ensures { result.now ≡ self.now }
    {
        self.items.as_slice()
    }

    /// The items, as a vector.
    pub fn into_vec(self) -> Vec<Element>
        ensures { result.items ≡ self }
    {
        let Elements { items } = self;
        items
    }
}

/// A list of data segments.
#[derive(Debug, Drop)]
pub struct Segments {
    items: Vec<Segment>,
}

impl Model for Segments {
    ghost use Rattle.std.specs.Prelude.{List};
    ghost use Rattle.mv_syntax.specs.declared.module.Segment.{Segment};

    ghost Value = { List Segment };

    ghost view = { λ a. a.items.items };
}

impl Segments {
    /// The list of these items.
    pub fn from_vec(items: Vec<Segment>) -> Segments
        ensures { result ≡ items.items }
    {
        Segments { items }
    }

    /// The items.
    pub fn slice(&self) -> &[Segment]
        ensures { result.now ≡ self.now }
    {
        self.items.as_slice()
    }

    /// The items, as a vector.
    pub fn into_vec(self) -> Vec<Segment>
        ensures { result.items ≡ self }
    {
        let Segments { items } = self;
        items
    }
}

/// A list of types of values.
#[derive(Debug, Drop)]
pub struct ValTypes {
    items: Vec<ValType>,
}

impl Model for ValTypes {
    ghost use Rattle.std.specs.Prelude.{List};
    ghost use Rattle.mv_syntax.specs.declared.ops.ValType.{ValType};

    ghost Value = { List ValType };

    ghost view = { λ a. a.items.items };
}

impl ValTypes {
    /// The list of these items.
    pub fn from_vec(items: Vec<ValType>) -> ValTypes
        ensures { result ≡ items.items }
    {
        ValTypes { items }
    }

    /// The items.
    pub fn slice(&self) -> &[ValType]
        ensures { result.now ≡ self.now }
    {
        self.items.as_slice()
    }

    /// The items, as a vector.
    pub fn into_vec(self) -> Vec<ValType>
        ensures { result.items ≡ self }
    {
        let ValTypes { items } = self;
        items
    }
}

/// A list of instructions.
#[derive(Debug, Drop)]
pub struct Code {
    items: Vec<Instr>,
}

impl Model for Code {
    ghost use Rattle.std.specs.Prelude.{List};
    ghost use Rattle.mv_syntax.specs.declared.instr.Instr.{Instr};

    ghost Value = { List Instr };

    ghost view = { λ a. a.items.items };
}

impl Code {
    /// The list of these items.
    pub fn from_vec(items: Vec<Instr>) -> Code
        ensures { result ≡ items.items }
    {
        Code { items }
    }

    /// The items.
    pub fn slice(&self) -> &[Instr]
        ensures { result.now ≡ self.now }
    {
        self.items.as_slice()
    }

    /// The items, as a vector.
    pub fn into_vec(self) -> Vec<Instr>
        ensures { result.items ≡ self }
    {
        let Code { items } = self;
        items
    }
}

/// A list of indices.
#[derive(Debug, Drop)]
pub struct Indices {
    items: Vec<u32>,
}

impl Model for Indices {
    ghost use Rattle.std.specs.Prelude.{List, ℕ};

    ghost Value = { List ℕ };

    ghost view = { λ a. a.items.items };
}

impl Indices {
    /// The list of these items.
    pub fn from_vec(items: Vec<u32>) -> Indices
        ensures { result ≡ items.items }
    {
        Indices { items }
    }

    /// The items.
    pub fn slice(&self) -> &[u32]
        ensures { result.now ≡ self.now }
    {
        self.items.as_slice()
    }

    /// The items, as a vector.
    pub fn into_vec(self) -> Vec<u32>
        ensures { result.items ≡ self }
    {
        let Indices { items } = self;
        items
    }
}
