// The instructions whose types are known without the blocks around them.

ghost use Rattle.std.specs.Prelude.{◌≡◌, ◌<◌, ◌++◌, List, Some, None, true, slice_get, is_some, map};
ghost use Rattle.std.specs.Option.{option_map};
ghost use Rattle.mv_validator.specs.ControlFrames.{is_simple, is_variable, is_memory, is_numeric};
ghost use Rattle.mv_validator.specs.Typing.{Context, type_of};
ghost use Rattle.mv_validator.specs.Types.{operands_of, is_natural as natural, taken_by_un as un_takes, given_by_un as un_gives, taken_by_test as test_takes};
ghost use Rattle.mv_validator.specs.Valid.{type_indices, context_in};
ghost use Rattle.mv_validator.specs.Views.{type_told};

use mv_syntax::{FuncType, Global, Instr, Locals, Module, TestOp, UnOp, ValType};

/// What an instruction takes, the newest operand first, and gives.
#[derive(Clone, Copy)]
pub struct InstrType {
    pub top: Option<ValType>,
    pub below: Option<ValType>,
    pub gives: Option<ValType>,
}

// The index of the type of a function; imported ones come first.
pub fn type_index(module: &Module, x: u32) -> Option<u32>
    ensures { result ≡ slice_get (type_indices «module».now) x }
{
    let imports = module.imports.slice();
    let funcs = module.funcs.slice();
    let x = x as usize;
    if x < imports.len() {
        return Some(imports[x].ftype);
    }
    if x - imports.len() < funcs.len() {
        return Some(funcs[x - imports.len()].ftype);
    }
    None
}

// The type of a local; parameters come first.
pub fn local_type(ftype: &FuncType, locals: &Locals, x: u32) -> Option<ValType>
    ensures { result ≡ slice_get (ftype.now.params ++ locals.now) x }
{
    let params = ftype.params.slice();
    let x = x as usize;
    if x < params.len() {
        return Some(params[x]);
    }
    locals.get(x - params.len())
}

// Whether the alignment, an exponent of two, is at most the width of the access.
pub fn is_natural(align: u32, bytes: u8) -> bool
    ensures { result ≡ natural align bytes }
{
    align < 8 && 1u32 << align <= u32::from(bytes)
}

fn taken_by_un(op: UnOp) -> ValType
    ensures { result ≡ un_takes op }
{
    match op {
        UnOp::Clz32 | UnOp::Ctz32 | UnOp::Popcnt32 | UnOp::ExtendS | UnOp::ExtendU => ValType::I32,
        UnOp::Clz64 | UnOp::Ctz64 | UnOp::Popcnt64 | UnOp::Wrap => ValType::I64,
    }
}

fn given_by_un(op: UnOp) -> ValType
    ensures { result ≡ un_gives op }
{
    match op {
        UnOp::Clz32 | UnOp::Ctz32 | UnOp::Popcnt32 | UnOp::Wrap => ValType::I32,
        UnOp::Clz64 | UnOp::Ctz64 | UnOp::Popcnt64 | UnOp::ExtendS | UnOp::ExtendU => ValType::I64,
    }
}

fn taken_by_test(op: TestOp) -> ValType
    ensures { result ≡ test_takes op }
{
    match op {
        TestOp::Eqz32 => ValType::I32,
        TestOp::Eqz64 => ValType::I64,
    }
}

// What takes the one on the other, and gives the last.
fn made(top: Option<ValType>, below: Option<ValType>, gives: Option<ValType>) -> InstrType
    ensures { type_told result ≡ (operands_of top ++ operands_of below, operands_of gives) }
{
    InstrType { top, below, gives }
}

// Of the instructions on locals and globals.
fn shape_of_variable(
    module: &Module,
    ftype: &FuncType,
    locals: &Locals,
    instr: &Instr,
) -> Option<InstrType>
    requires { is_variable instr.now ≡ true }
    ensures { option_map type_told result ≡ type_of (context_in «module».now ftype.now locals.now) instr.now }
{
    match instr {
        Instr::LocalGet(x) => {
            let t = local_type(ftype, locals, *x)?;
            Some(made(None, None, Some(t)))
        }
        Instr::LocalSet(x) => {
            let t = local_type(ftype, locals, *x)?;
            Some(made(Some(t), None, None))
        }
        Instr::LocalTee(x) => {
            let t = local_type(ftype, locals, *x)?;
            Some(made(Some(t), None, Some(t)))
        }
        Instr::GlobalGet(x) => match module.globals.slice().get(*x as usize) {
            None => None,
            Some(global) => Some(made(None, None, Some(global.vtype))),
        },
        Instr::GlobalSet(x) => match module.globals.slice().get(*x as usize) {
            None => None,
            Some(global) => {
                if !global.mutable {
                    return None;
                }
                Some(made(Some(global.vtype), None, None))
            }
        },
        _ => unreachable!(),
    }
}

// Of the instructions on the memory.
fn shape_of_access(module: &Module, instr: &Instr) -> Option<InstrType>
    requires { is_memory instr.now ≡ true }
    ensures { (t : FuncType) (locals : List ValType) → option_map type_told result ≡ type_of (context_in «module».now t locals) instr.now }
{
    if module.memory.is_none() {
        return None;
    }
    let address = Some(ValType::I32);
    match instr {
        Instr::Load {
            result,
            bytes,
            align,
            ..
        } => {
            if !is_natural(*align, *bytes) {
                return None;
            }
            Some(made(address, None, Some(*result)))
        }
        Instr::Store {
            value,
            bytes,
            align,
            ..
        } => {
            if !is_natural(*align, *bytes) {
                return None;
            }
            Some(made(Some(*value), address, None))
        }
        Instr::MemorySize => Some(made(None, None, Some(ValType::I32))),
        Instr::MemoryGrow => Some(made(Some(ValType::I32), None, Some(ValType::I32))),
        _ => unreachable!(),
    }
}

// Of the numeric instructions.
fn shape_of_numeric(instr: &Instr) -> InstrType
    requires { is_numeric instr.now ≡ true }
    ensures { (c : Context) → Some (type_told result) ≡ type_of c instr.now }
{
    match instr {
        Instr::Nop => made(None, None, None),
        Instr::Const { vtype, .. } => made(None, None, Some(*vtype)),
        Instr::Un(op) => made(Some(taken_by_un(*op)), None, Some(given_by_un(*op))),
        Instr::Test(op) => made(Some(taken_by_test(*op)), None, Some(ValType::I32)),
        Instr::Rel(op) => made(Some(op.width), Some(op.width), Some(ValType::I32)),
        Instr::Bin(op) => made(Some(op.width), Some(op.width), Some(op.width)),
        _ => unreachable!(),
    }
}

// What the instruction takes and gives, if there is what it names.
pub fn instr_type_of(
    module: &Module,
    ftype: &FuncType,
    locals: &Locals,
    instr: &Instr,
) -> Option<InstrType>
    requires { is_simple instr.now ≡ true }
    ensures { option_map type_told result ≡ type_of (context_in «module».now ftype.now locals.now) instr.now }
{
    match instr {
        Instr::LocalGet(_)
        | Instr::LocalSet(_)
        | Instr::LocalTee(_)
        | Instr::GlobalGet(_)
        | Instr::GlobalSet(_) => shape_of_variable(module, ftype, locals, instr),
        Instr::Load { .. } | Instr::Store { .. } | Instr::MemorySize | Instr::MemoryGrow =>
            shape_of_access(module, instr),
        _ => Some(shape_of_numeric(instr)),
    }
}
