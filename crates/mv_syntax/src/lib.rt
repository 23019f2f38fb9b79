//! The abstract syntax of WebAssembly Core 1.0, without floating point, and the faults of modules. Which bytes spell a
//! module is defined in `specs/`.
#![tactic(auto)]

mod fault;
mod instr;
mod laws;
mod lists;
mod locals;
mod module;
mod ops;
mod types;

pub use fault::{BornFault, ReadFault, ReadKind, StartFault, ValidFault, ValidKind};
pub use instr::Instr;
pub use laws::{
    a_file_is_one_module_or_faulty, bodies_are_standard, first_faults, numbers_are_standard,
};
pub use lists::{
    Code, Elements, Exports, FuncTypes, Funcs, Globals, Imports, Indices, Segments, ValTypes,
};
pub use locals::{LocalRun, Locals};
pub use module::{Element, Export, Func, Global, Import, Module, Segment};
pub use ops::{BinOp, Binary, Compare, RelOp, TestOp, UnOp, ValType};
pub use types::{FuncType, Limits};
