//! The numeric operators, without those on floating-point numbers (WebAssembly Core 1.0, 2.4.1).

/// A value type (WebAssembly Core 1.0, 2.3.1).
#[derive(Clone, Copy, PartialEq, Eq, Debug)]
pub enum ValType {
    I32,
    I64,
}

/// A numeric instruction with one operand (2.4.1).
#[derive(Clone, Copy, PartialEq, Eq, Debug)]
pub enum UnOp {
    Clz32,
    Ctz32,
    Popcnt32,
    Clz64,
    Ctz64,
    Popcnt64,
    /// `i32.wrap_i64`
    Wrap,
    /// `i64.extend_i32_s`
    ExtendS,
    /// `i64.extend_i32_u`
    ExtendU,
}

/// A test of one operand (2.4.1).
#[derive(Clone, Copy, PartialEq, Eq, Debug)]
pub enum TestOp {
    Eqz32,
    Eqz64,
}

/// A comparison of two integers of one type.
#[derive(Clone, Copy, PartialEq, Eq, Debug)]
pub enum Compare {
    Eq,
    Ne,
    LtS,
    LtU,
    GtS,
    GtU,
    LeS,
    LeU,
    GeS,
    GeU,
}

/// A comparison with the type of its operands (2.4.1).
#[derive(Clone, Copy, PartialEq, Eq, Debug)]
pub struct RelOp {
    pub width: ValType,
    pub op: Compare,
}

/// An operation on two integers of one type.
#[derive(Clone, Copy, PartialEq, Eq, Debug)]
pub enum Binary {
    Add,
    Sub,
    Mul,
    DivS,
    DivU,
    RemS,
    RemU,
    And,
    Or,
    Xor,
    Shl,
    ShrS,
    ShrU,
    Rotl,
    Rotr,
}

/// An operation with the type of its operands and its result (2.4.1).
#[derive(Clone, Copy, PartialEq, Eq, Debug)]
pub struct BinOp {
    pub width: ValType,
    pub op: Binary,
}
