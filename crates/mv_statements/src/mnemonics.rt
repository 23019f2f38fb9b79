//! The names of instructions.
ghost use Rattle.std.specs.Prelude.{◌≡◌};
ghost use Rattle.mv_statements.specs.Mnemonics.{access_names, binary_names, compare_names, instr_named, lookup, plain_names, typed_named, unary_names};

use mv_syntax::{BinOp, Binary, Compare, Indices, Instr, RelOp, TestOp, UnOp, ValType};
use std::alloc::Global;

/// A comparison, behind the prefix of its type.
fn compare_named(word: &[u8]) -> Option<Compare>
    ensures { result ≡ lookup word.now compare_names }
{
    if word == b"eq".as_slice() {
        Some(Compare::Eq)
    } else if word == b"ne".as_slice() {
        Some(Compare::Ne)
    } else if word == b"lt_s".as_slice() {
        Some(Compare::LtS)
    } else if word == b"lt_u".as_slice() {
        Some(Compare::LtU)
    } else if word == b"gt_s".as_slice() {
        Some(Compare::GtS)
    } else if word == b"gt_u".as_slice() {
        Some(Compare::GtU)
    } else if word == b"le_s".as_slice() {
        Some(Compare::LeS)
    } else if word == b"le_u".as_slice() {
        Some(Compare::LeU)
    } else if word == b"ge_s".as_slice() {
        Some(Compare::GeS)
    } else if word == b"ge_u".as_slice() {
        Some(Compare::GeU)
    } else {
        None
    }
}

/// An operation on two integers, behind the prefix of its type.
fn binary_named(word: &[u8]) -> Option<Binary>
    ensures { result ≡ lookup word.now binary_names }
{
    if word == b"add".as_slice() {
        Some(Binary::Add)
    } else if word == b"sub".as_slice() {
        Some(Binary::Sub)
    } else if word == b"mul".as_slice() {
        Some(Binary::Mul)
    } else if word == b"div_s".as_slice() {
        Some(Binary::DivS)
    } else if word == b"div_u".as_slice() {
        Some(Binary::DivU)
    } else if word == b"rem_s".as_slice() {
        Some(Binary::RemS)
    } else if word == b"rem_u".as_slice() {
        Some(Binary::RemU)
    } else if word == b"and".as_slice() {
        Some(Binary::And)
    } else if word == b"or".as_slice() {
        Some(Binary::Or)
    } else if word == b"xor".as_slice() {
        Some(Binary::Xor)
    } else if word == b"shl".as_slice() {
        Some(Binary::Shl)
    } else if word == b"shr_s".as_slice() {
        Some(Binary::ShrS)
    } else if word == b"shr_u".as_slice() {
        Some(Binary::ShrU)
    } else if word == b"rotl".as_slice() {
        Some(Binary::Rotl)
    } else if word == b"rotr".as_slice() {
        Some(Binary::Rotr)
    } else {
        None
    }
}

/// An operation on one integer of 32 bits.
fn narrow_unary_named(word: &[u8]) -> Option<Instr>
    ensures { result ≡ lookup word.now (unary_names ValType.I32) }
{
    if word == b"clz".as_slice() {
        Some(Instr::Un(UnOp::Clz32))
    } else if word == b"ctz".as_slice() {
        Some(Instr::Un(UnOp::Ctz32))
    } else if word == b"popcnt".as_slice() {
        Some(Instr::Un(UnOp::Popcnt32))
    } else if word == b"wrap_i64".as_slice() {
        Some(Instr::Un(UnOp::Wrap))
    } else if word == b"eqz".as_slice() {
        Some(Instr::Test(TestOp::Eqz32))
    } else {
        None
    }
}

/// An operation on one integer of 64 bits.
fn wide_unary_named(word: &[u8]) -> Option<Instr>
    ensures { result ≡ lookup word.now (unary_names ValType.I64) }
{
    if word == b"clz".as_slice() {
        Some(Instr::Un(UnOp::Clz64))
    } else if word == b"ctz".as_slice() {
        Some(Instr::Un(UnOp::Ctz64))
    } else if word == b"popcnt".as_slice() {
        Some(Instr::Un(UnOp::Popcnt64))
    } else if word == b"extend_i32_s".as_slice() {
        Some(Instr::Un(UnOp::ExtendS))
    } else if word == b"extend_i32_u".as_slice() {
        Some(Instr::Un(UnOp::ExtendU))
    } else if word == b"eqz".as_slice() {
        Some(Instr::Test(TestOp::Eqz64))
    } else {
        None
    }
}

/// A constant, a load or a store of 32 bits.
fn narrow_access_named(word: &[u8]) -> Option<Instr>
    ensures { result ≡ lookup word.now (access_names ValType.I32) }
{
    if word == b"const".as_slice() {
        Some(Instr::Const {
            vtype: ValType::I32,
            value: 0,
        })
    } else if word == b"load".as_slice() {
        Some(Instr::Load {
            result: ValType::I32,
            bytes: 4,
            signed: false,
            align: 0,
            offset: 0,
        })
    } else if word == b"load8_s".as_slice() {
        Some(Instr::Load {
            result: ValType::I32,
            bytes: 1,
            signed: true,
            align: 0,
            offset: 0,
        })
    } else if word == b"load8_u".as_slice() {
        Some(Instr::Load {
            result: ValType::I32,
            bytes: 1,
            signed: false,
            align: 0,
            offset: 0,
        })
    } else if word == b"load16_s".as_slice() {
        Some(Instr::Load {
            result: ValType::I32,
            bytes: 2,
            signed: true,
            align: 0,
            offset: 0,
        })
    } else if word == b"load16_u".as_slice() {
        Some(Instr::Load {
            result: ValType::I32,
            bytes: 2,
            signed: false,
            align: 0,
            offset: 0,
        })
    } else if word == b"store".as_slice() {
        Some(Instr::Store {
            value: ValType::I32,
            bytes: 4,
            align: 0,
            offset: 0,
        })
    } else if word == b"store8".as_slice() {
        Some(Instr::Store {
            value: ValType::I32,
            bytes: 1,
            align: 0,
            offset: 0,
        })
    } else if word == b"store16".as_slice() {
        Some(Instr::Store {
            value: ValType::I32,
            bytes: 2,
            align: 0,
            offset: 0,
        })
    } else {
        None
    }
}

/// A constant, a load or a store of 64 bits.
fn wide_access_named(word: &[u8]) -> Option<Instr>
    ensures { result ≡ lookup word.now (access_names ValType.I64) }
{
    if word == b"const".as_slice() {
        Some(Instr::Const {
            vtype: ValType::I64,
            value: 0,
        })
    } else if word == b"load".as_slice() {
        Some(Instr::Load {
            result: ValType::I64,
            bytes: 8,
            signed: false,
            align: 0,
            offset: 0,
        })
    } else if word == b"load8_s".as_slice() {
        Some(Instr::Load {
            result: ValType::I64,
            bytes: 1,
            signed: true,
            align: 0,
            offset: 0,
        })
    } else if word == b"load8_u".as_slice() {
        Some(Instr::Load {
            result: ValType::I64,
            bytes: 1,
            signed: false,
            align: 0,
            offset: 0,
        })
    } else if word == b"load16_s".as_slice() {
        Some(Instr::Load {
            result: ValType::I64,
            bytes: 2,
            signed: true,
            align: 0,
            offset: 0,
        })
    } else if word == b"load16_u".as_slice() {
        Some(Instr::Load {
            result: ValType::I64,
            bytes: 2,
            signed: false,
            align: 0,
            offset: 0,
        })
    } else if word == b"load32_s".as_slice() {
        Some(Instr::Load {
            result: ValType::I64,
            bytes: 4,
            signed: true,
            align: 0,
            offset: 0,
        })
    } else if word == b"load32_u".as_slice() {
        Some(Instr::Load {
            result: ValType::I64,
            bytes: 4,
            signed: false,
            align: 0,
            offset: 0,
        })
    } else if word == b"store".as_slice() {
        Some(Instr::Store {
            value: ValType::I64,
            bytes: 8,
            align: 0,
            offset: 0,
        })
    } else if word == b"store8".as_slice() {
        Some(Instr::Store {
            value: ValType::I64,
            bytes: 1,
            align: 0,
            offset: 0,
        })
    } else if word == b"store16".as_slice() {
        Some(Instr::Store {
            value: ValType::I64,
            bytes: 2,
            align: 0,
            offset: 0,
        })
    } else if word == b"store32".as_slice() {
        Some(Instr::Store {
            value: ValType::I64,
            bytes: 4,
            align: 0,
            offset: 0,
        })
    } else {
        None
    }
}

/// An operation on one integer of the type.
fn unary_named(vtype: ValType, word: &[u8]) -> Option<Instr>
    ensures { result ≡ lookup word.now (unary_names vtype) }
{
    match vtype {
        ValType::I32 => narrow_unary_named(word),
        ValType::I64 => wide_unary_named(word),
    }
}

/// A constant, a load or a store of the type.
fn access_named(vtype: ValType, word: &[u8]) -> Option<Instr>
    ensures { result ≡ lookup word.now (access_names vtype) }
{
    match vtype {
        ValType::I32 => narrow_access_named(word),
        ValType::I64 => wide_access_named(word),
    }
}

/// An instruction behind the prefix of its type.
fn typed_named(vtype: ValType, word: &[u8]) -> Option<Instr>
    ensures { result ≡ typed_named vtype word.now }
{
    if let Some(instr) = access_named(vtype, word) {
        return Some(instr);
    }
    if let Some(instr) = unary_named(vtype, word) {
        return Some(instr);
    }
    if let Some(op) = binary_named(word) {
        return Some(Instr::Bin(BinOp { width: vtype, op }));
    }
    match compare_named(word) {
        Some(op) => Some(Instr::Rel(RelOp { width: vtype, op })),
        None => None,
    }
}

/// An instruction whose name has no type before it.
fn plain_named(alloc: Global, word: &[u8]) -> Option<Instr>
    ensures { result ≡ lookup word.now plain_names }
{
    if word == b"unreachable".as_slice() {
        Some(Instr::Unreachable)
    } else if word == b"nop".as_slice() {
        Some(Instr::Nop)
    } else if word == b"block".as_slice() {
        Some(Instr::Block(None))
    } else if word == b"loop".as_slice() {
        Some(Instr::Loop(None))
    } else if word == b"if".as_slice() {
        Some(Instr::If(None))
    } else if word == b"else".as_slice() {
        Some(Instr::Else)
    } else if word == b"end".as_slice() {
        Some(Instr::End)
    } else if word == b"br".as_slice() {
        Some(Instr::Br(0))
    } else if word == b"br_if".as_slice() {
        Some(Instr::BrIf(0))
    } else if word == b"br_table".as_slice() {
        Some(Instr::BrTable {
            labels: Indices::from_vec(Vec::new(alloc)),
            last: 0,
        })
    } else if word == b"return".as_slice() {
        Some(Instr::Return)
    } else if word == b"call".as_slice() {
        Some(Instr::Call(0))
    } else if word == b"call_indirect".as_slice() {
        Some(Instr::CallIndirect(0))
    } else if word == b"drop".as_slice() {
        Some(Instr::Drop)
    } else if word == b"select".as_slice() {
        Some(Instr::Select)
    } else if word == b"local.get".as_slice() {
        Some(Instr::LocalGet(0))
    } else if word == b"local.set".as_slice() {
        Some(Instr::LocalSet(0))
    } else if word == b"local.tee".as_slice() {
        Some(Instr::LocalTee(0))
    } else if word == b"global.get".as_slice() {
        Some(Instr::GlobalGet(0))
    } else if word == b"global.set".as_slice() {
        Some(Instr::GlobalSet(0))
    } else if word == b"memory.size".as_slice() {
        Some(Instr::MemorySize)
    } else if word == b"memory.grow".as_slice() {
        Some(Instr::MemoryGrow)
    } else {
        None
    }
}

/// The instruction of this name; its immediates, if it has any, are still zero.
pub fn instr_named(alloc: Global, word: &[u8]) -> Option<Instr>
    ensures { result ≡ instr_named word.now }
{
    let count = if word.len() < 4 { word.len() } else { 4 };
    let (prefix, rest) = word.split_at(count);
    if prefix == b"i32.".as_slice() {
        typed_named(ValType::I32, rest)
    } else if prefix == b"i64.".as_slice() {
        typed_named(ValType::I64, rest)
    } else {
        plain_named(alloc, word)
    }
}
