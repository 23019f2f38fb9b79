//! What is checked of a module before it is instantiated: imports, the entry, and the bounds of its segments.
ghost use Rattle.std.specs.Prelude.{◌≡◌, ◌+◌, ◌<◌, ◌≤◌, [], IsTrue, Some, None, IfSome, IfNone, length, nat_le, if◌then◌else◌};
ghost use Rattle.mv_validator.specs.Valid.{IsValid};
ghost use Rattle.mv_validator.specs.Typing.{func_type};
ghost use Rattle.mv_execution.specs.Fits.{module_context};
ghost use Rattle.mv_machine.specs.Calls.{HasFunction};
ghost use Rattle.mv_syntax.specs.declared.types.FuncType.{FuncType as Signature};
ghost use Rattle.mv_syntax.specs.Types.{same_function_type};
ghost use Rattle.mv_execution.specs.Instance.{constant_of, type_at};
ghost use Rattle.mv_imports.specs.Functions.{is_typed as is_typed_as};
ghost use Rattle.mv_start.specs.Instances.{import_fault, imports_fault, first_fault, export_named, entry_of, nothing_type, number_type, element_fault, data_fault};

use mv_imports::{HostFunction, find_function, has_type};
use mv_machine::Machine;
use mv_syntax::{Export, FuncType, Import, Instr, Module, StartFault, ValType};

/// Whether the type with this index is the function's.
fn is_typed(function: HostFunction, types: &[FuncType], index: u32) -> bool
    requires { index < length types.now }
    ensures { result ≡ is_typed_as function (type_at types.now index) }
{
    has_type(function, &types[index as usize])
}

/// What is wrong with an import.
fn fault_of_import(types: &[FuncType], number: u32, import: &Import) -> Option<StartFault>
    requires { import.now.ftype < length types.now }
    ensures { result ≡ import_fault types.now number import.now }
{
    let Some(function) = find_function(import.module.slice(), import.name.slice()) else {
        return Some(StartFault::UnknownImport { import: number });
    };
    if is_typed(function, types, import.ftype) {
        None
    } else {
        Some(StartFault::ImportType { import: number })
    }
}

/// The first import that this host doesn't have, or not with that type.
pub fn fault_of_imports(module: &Module) -> Option<StartFault>
    requires valid { IsValid «module».now }
    ensures { result ≡ imports_fault «module».now }
{
    module.counted();
    for (item, import) in module.imports.slice().iter().enumerate() {
        let fault = fault_of_import(module.types.slice(), item as u32, import);
        if let Some(fault) = fault {
            return Some(fault);
        }
    }
    None
}

/// The export with this name.
fn find_export<'a>(name: &[u8], exports: &'a [Export]) -> Option<&'a Export>
    ensures some { IfSome result (λ x. export_named name.now exports.now ≡ Some x.now) }
    ensures none { IfNone result (export_named name.now exports.now ≡ None) }
{
    for export in exports {
        if export.name.slice() == name {
            return Some(export);
        }
    }
    None
}

/// Whether a function has neither parameter nor result.
fn is_nothing(ftype: &FuncType) -> bool
    ensures is { result ≡ same_function_type ftype.now nothing_type }
    ensures params { IsTrue result → ftype.now.params ≡ [] }
{
    match ftype.params.slice() {
        [] => ftype.result.is_none(),
        _ => false,
    }
}

/// Whether a function has no parameter, and an i32 as its result.
fn is_number(ftype: &FuncType) -> bool
    ensures is { result ≡ same_function_type ftype.now number_type }
    ensures params { IsTrue result → ftype.now.params ≡ [] }
{
    match ftype.params.slice() {
        [] => matches!(ftype.result, Some(ValType::I32)),
        _ => false,
    }
}

/// The function that is exported by this name, with an i32 as its result or with none.
pub fn entry(machine: &Machine, name: &[u8], number: bool) -> Option<u32>
    ensures is { result ≡ entry_of name.now (if number then number_type else nothing_type) machine.now.parts }
    ensures there { IfSome result (λ x. HasFunction machine.now.parts x) }
    ensures no_parameter { IfSome result (λ x. (t : Signature) → func_type (module_context machine.now.parts) x ≡ Some t → t.params ≡ []) }
{
    let module = machine.module().module();
    let Some(export) = find_export(name, module.exports.slice()) else {
        return None;
    };
    if export.kind != 0 {
        return None;
    }
    let Some(ftype) = machine.function_type(export.index) else {
        return None;
    };
    let fits = if number {
        is_number(ftype)
    } else {
        is_nothing(ftype)
    };
    if fits { Some(export.index) } else { None }
}

/// The value of an expression of one constant.
pub fn constant(code: &[Instr]) -> u64
    ensures { result ≡ constant_of code.now }
{
    match code.first() {
        Some(Instr::Const { value, .. }) => *value,
        _ => 0,
    }
}

/// Whether so many items from a place on are within a size.
fn lies_within(offset: u64, len: usize, size: usize) -> bool
    ensures { result ≡ nat_le (offset + len) size }
{
    len <= size && offset <= (size - len) as u64
}

/// The first element segment that passes the table's end.
pub fn fault_of_elements(module: &Module, size: usize) -> Option<StartFault>
    ensures { result ≡ first_fault (element_fault size) 0 «module».now.elements }
{
    module.counted();
    for (item, element) in module.elements.slice().iter().enumerate() {
        let offset = constant(element.offset.slice());
        if !lies_within(offset, element.funcs.slice().len(), size) {
            return Some(StartFault::ElementBounds {
                segment: item as u32,
            });
        }
    }
    None
}

/// The first data segment that passes the memory's end.
pub fn fault_of_segments(module: &Module, size: usize) -> Option<StartFault>
    ensures { result ≡ first_fault (data_fault size) 0 «module».now.segments }
{
    module.counted();
    for (item, segment) in module.segments.slice().iter().enumerate() {
        let offset = constant(segment.offset.slice());
        if !lies_within(offset, segment.bytes.slice().len(), size) {
            return Some(StartFault::DataBounds {
                segment: item as u32,
            });
        }
    }
    None
}
