//! Opcodes.
ghost use Rattle.std.specs.Prelude.{◌≡◌, ◌<◌};
ghost use Rattle.mv_syntax.specs.Opcodes.{load_code as load_is, store_code as store_is, un_code as un_is, compare_number as compare_is, operation_number as operation_is, opcode as opcode_is};

use mv_syntax::{Binary, Compare, Instr, TestOp, UnOp, ValType};

fn load_code(width: ValType, bytes: u8, signed: bool) -> u8
    ensures { result ≡ load_is width bytes signed }
{
    match width {
        ValType::I32 => match (bytes, signed) {
            (4, _) => 0x28,
            (1, true) => 0x2c,
            (1, false) => 0x2d,
            (_, true) => 0x2e,
            (_, false) => 0x2f,
        },
        ValType::I64 => match (bytes, signed) {
            (8, _) => 0x29,
            (1, true) => 0x30,
            (1, false) => 0x31,
            (2, true) => 0x32,
            (2, false) => 0x33,
            (_, true) => 0x34,
            (_, false) => 0x35,
        },
    }
}

fn store_code(width: ValType, bytes: u8) -> u8
    ensures { result ≡ store_is width bytes }
{
    match (width, bytes) {
        (ValType::I32, 4) => 0x36,
        (ValType::I32, 1) => 0x3a,
        (ValType::I32, _) => 0x3b,
        (ValType::I64, 8) => 0x37,
        (ValType::I64, 1) => 0x3c,
        (ValType::I64, 2) => 0x3d,
        (ValType::I64, _) => 0x3e,
    }
}

fn un_code(op: UnOp) -> u8
    ensures { result ≡ un_is op }
{
    match op {
        UnOp::Clz32 => 0x67,
        UnOp::Ctz32 => 0x68,
        UnOp::Popcnt32 => 0x69,
        UnOp::Clz64 => 0x79,
        UnOp::Ctz64 => 0x7a,
        UnOp::Popcnt64 => 0x7b,
        UnOp::Wrap => 0xa7,
        UnOp::ExtendS => 0xac,
        UnOp::ExtendU => 0xad,
    }
}

/// The place of a comparison among the ten of its width.
fn compare_number(op: Compare) -> u8
    ensures number { result ≡ compare_is op }
    ensures below { result < 10 }
{
    match op {
        Compare::Eq => 0,
        Compare::Ne => 1,
        Compare::LtS => 2,
        Compare::LtU => 3,
        Compare::GtS => 4,
        Compare::GtU => 5,
        Compare::LeS => 6,
        Compare::LeU => 7,
        Compare::GeS => 8,
        Compare::GeU => 9,
    }
}

/// The place of an operation among the fifteen of its width.
fn operation_number(op: Binary) -> u8
    ensures number { result ≡ operation_is op }
    ensures below { result < 15 }
{
    match op {
        Binary::Add => 0,
        Binary::Sub => 1,
        Binary::Mul => 2,
        Binary::DivS => 3,
        Binary::DivU => 4,
        Binary::RemS => 5,
        Binary::RemU => 6,
        Binary::And => 7,
        Binary::Or => 8,
        Binary::Xor => 9,
        Binary::Shl => 10,
        Binary::ShrS => 11,
        Binary::ShrU => 12,
        Binary::Rotl => 13,
        Binary::Rotr => 14,
    }
}

/// The byte with which the spelling of an instruction begins (WebAssembly Core 1.0, 5.4).
pub fn opcode(instr: &Instr) -> u8
    ensures { result ≡ opcode_is instr.now }
{
    match instr {
        Instr::Unreachable => 0x00,
        Instr::Nop => 0x01,
        Instr::Block(_) => 0x02,
        Instr::Loop(_) => 0x03,
        Instr::If(_) => 0x04,
        Instr::Else => 0x05,
        Instr::End => 0x0b,
        Instr::Br(_) => 0x0c,
        Instr::BrIf(_) => 0x0d,
        Instr::BrTable { .. } => 0x0e,
        Instr::Return => 0x0f,
        Instr::Call(_) => 0x10,
        Instr::CallIndirect(_) => 0x11,
        Instr::Drop => 0x1a,
        Instr::Select => 0x1b,
        Instr::LocalGet(_) => 0x20,
        Instr::LocalSet(_) => 0x21,
        Instr::LocalTee(_) => 0x22,
        Instr::GlobalGet(_) => 0x23,
        Instr::GlobalSet(_) => 0x24,
        Instr::Load {
            result,
            bytes,
            signed,
            ..
        } => load_code(*result, *bytes, *signed),
        Instr::Store { value, bytes, .. } => store_code(*value, *bytes),
        Instr::MemorySize => 0x3f,
        Instr::MemoryGrow => 0x40,
        Instr::Const { vtype, .. } => match vtype {
            ValType::I32 => 0x41,
            ValType::I64 => 0x42,
        },
        Instr::Un(op) => un_code(*op),
        Instr::Test(op) => match op {
            TestOp::Eqz32 => 0x45,
            TestOp::Eqz64 => 0x50,
        },
        Instr::Rel(op) => match op.width {
            ValType::I32 => 0x46 + compare_number(op.op),
            ValType::I64 => 0x51 + compare_number(op.op),
        },
        Instr::Bin(op) => match op.width {
            ValType::I32 => 0x6a + operation_number(op.op),
            ValType::I64 => 0x7c + operation_number(op.op),
        },
    }
}
