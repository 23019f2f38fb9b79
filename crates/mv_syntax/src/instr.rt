//! Instructions, in the order in which a body has them.

use crate::lists::Indices;
use crate::ops::{BinOp, RelOp, TestOp, UnOp, ValType};

/// An instruction (WebAssembly Core 1.0, 2.4). What a block holds follows it, up to its `End`.
#[derive(Debug, Drop)]
pub enum Instr {
    Unreachable,
    Nop,
    /// A block with this result. A branch to it goes on behind its `End`.
    Block(Option<ValType>),
    /// A block with this result. A branch to it goes back to its start.
    Loop(Option<ValType>),
    /// A block with this result, which is entered where the condition isn't zero, and its `Else` otherwise.
    If(Option<ValType>),
    Else,
    /// The end of a block or of the whole body.
    End,
    /// A branch to the block that so many blocks stand within.
    Br(u32),
    BrIf(u32),
    /// A branch to the label that the operand numbers, or to the last one.
    BrTable {
        labels: Indices,
        last: u32,
    },
    Return,
    /// A call of the function with this index; imported functions come first.
    Call(u32),
    /// A call of an entry of the table that has the type with this index.
    CallIndirect(u32),
    Drop,
    Select,
    LocalGet(u32),
    LocalSet(u32),
    LocalTee(u32),
    GlobalGet(u32),
    GlobalSet(u32),
    /// So many bytes are read; `signed` is false where they are the whole width of the result. The alignment is an
    /// exponent of two.
    Load {
        result: ValType,
        bytes: u8,
        signed: bool,
        align: u32,
        offset: u32,
    },
    /// So many of the low bytes of the value are written.
    Store {
        value: ValType,
        bytes: u8,
        align: u32,
        offset: u32,
    },
    MemorySize,
    MemoryGrow,
    /// A constant. One of I32 has its value in the low half, the high half zero.
    Const {
        vtype: ValType,
        value: u64,
    },
    Un(UnOp),
    Test(TestOp),
    Rel(RelOp),
    Bin(BinOp),
}
