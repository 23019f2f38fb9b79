//! Types of functions, tables and memories.

use crate::lists::ValTypes;
use crate::ops::ValType;

/// The size of a table, in entries, or of a memory, in pages of 65,536 bytes: the least, and the most that it may
/// grow to (WebAssembly Core 1.0, 2.3.4).
#[derive(Clone, Copy, PartialEq, Eq, Debug)]
pub struct Limits {
    pub min: u32,
    pub max: Option<u32>,
}

/// The type of a function, with at most one result (2.3.3).
#[derive(Debug, Drop)]
pub struct FuncType {
    pub params: ValTypes,
    pub result: Option<ValType>,
}
