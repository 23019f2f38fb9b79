// What is checked of a module without the bodies of its functions.

ghost use Rattle.std.specs.Prelude.{◌≡◌, ℕ, ◌<◌, ◌^◌, List, Option, Some, None, true, not, length, take, slice_get, nat_lt, if◌then◌else◌, is_some, IfOk};
ghost use Rattle.mv_syntax.specs.Sections.{Parts};
ghost use Rattle.mv_syntax.specs.Counted.{AreCounted};
ghost use Rattle.mv_validator.specs.Faults.{any_lacking, lacking};
ghost use Rattle.mv_validator.specs.Valid.{type_indices, type_at, exported_count as exported};
ghost use Rattle.mv_syntax.specs.declared.fault.ValidKind.TheVariants.{FuncIndex, TypeIndex};
ghost use Rattle.mv_validator.specs.Checks.{GlobalInit, ExportedAs, StartOf, ElementsOf, DataOf, Tells, within as are_within, is_constant as one_constant, has_name as is_named, starts, fault_of, kind_of_export as export_kind, import_checks, function_checks, size_checks, global_checks, export_checks, start_checks, element_checks, data_checks, declaration_checks};

use crate::instr_type::type_index;
use crate::kind::unless;
use mv_syntax::{
    Element, Export, Global as GlobalItem, Instr, Limits, Module, Segment, ValType, ValidFault,
    ValidKind,
};
use std::alloc::{AllocError, Global};
use std::collections::BTreeSet;

// A number of 32 bits.
pub fn number(n: usize) -> u32
    requires { n < 2 ^ 32 }
    ensures { result ≡ n }
{
    n as u32
}

// A fault of an item as a whole.
fn fault(part: u8, item: usize, kind: ValidKind) -> ValidFault
    requires { item < 2 ^ 32 }
    ensures { result ≡ record { part = part; item = item; at = 0; kind = kind } }
{
    ValidFault {
        part,
        item: number(item),
        at: 0,
        kind,
    }
}

// Whether the limits are within the range.
fn within(range: u64, limits: Limits) -> bool
    ensures { result ≡ are_within range limits }
{
    let least = u64::from(limits.min);
    match limits.max {
        None => least <= range,
        Some(most) => least <= range && u64::from(most) <= range && limits.min <= most,
    }
}

// Whether the code is one constant of the type.
fn is_constant(vtype: ValType, code: &[Instr]) -> bool
    ensures { result ≡ one_constant vtype code.now }
{
    match code {
        [Instr::Const { vtype: found, .. }, Instr::End] => *found == vtype,
        _ => false,
    }
}

// How many functions there are, the imported ones among them.
fn function_count(module: &Module) -> usize
    requires { AreCounted «module».now }
    ensures { result ≡ length (type_indices «module».now) }
{
    module.imports.slice().len() + module.funcs.slice().len()
}

// How many functions, tables, memories or globals there are that an export of the kind may name.
fn exported_count(module: &Module, kind: u8) -> usize
    requires { AreCounted «module».now }
    ensures { result ≡ exported «module».now kind }
{
    if kind == 0 {
        return function_count(module);
    }
    if kind == 1 {
        return if module.table.is_some() { 1 } else { 0 };
    }
    if kind == 2 {
        return if module.memory.is_some() { 1 } else { 0 };
    }
    module.globals.slice().len()
}

// What is wrong where the index of an export of the kind isn't there.
fn kind_of_export(kind: u8) -> ValidKind
    ensures { result ≡ export_kind kind }
{
    if kind == 0 {
        return ValidKind::FuncIndex;
    }
    if kind == 1 {
        return ValidKind::NoTable;
    }
    if kind == 2 {
        return ValidKind::NoMemory;
    }
    ValidKind::GlobalIndex
}

// What is wrong where a type is named.
fn type_fault(module: &Module, x: u32) -> Option<ValidKind>
    ensures { result ≡ lacking TypeIndex (slice_get «module».now.types x) }
{
    match module.types.slice().get(x as usize) {
        None => Some(ValidKind::TypeIndex),
        Some(_) => None,
    }
}

// What is wrong with a global.
fn global_fault(global: &GlobalItem) -> Option<ValidKind>
    ensures { (p : Parts) → result ≡ fault_of p (GlobalInit global.now) }
{
    unless(
        ValidKind::Constant,
        is_constant(global.vtype, global.init.slice()),
    )
}

// What is wrong with an export whose name is new, or is the name of one before it.
fn export_fault(module: &Module, is_new: bool, export: &Export) -> Option<ValidKind>
    requires { AreCounted «module».now }
    ensures { (n : ℕ) → is_new ≡ not (is_named export.now.name (take n «module».now.exports)) → result ≡ fault_of «module».now (ExportedAs n export.now) }
{
    if !is_new {
        return Some(ValidKind::ExportName);
    }
    let there = (export.index as usize) < exported_count(module, export.kind);
    unless(kind_of_export(export.kind), there)
}

// What is wrong with the start function.
fn start_fault(module: &Module, x: u32) -> Option<ValidKind>
    ensures { result ≡ fault_of «module».now (StartOf x) }
{
    let Some(t) = type_index(module, x) else {
        return Some(ValidKind::FuncIndex);
    };
    match module.types.slice().get(t as usize) {
        None => Some(ValidKind::FuncIndex),
        Some(ftype) => unless(
            ValidKind::StartType,
            ftype.params.slice().len() == 0 && ftype.result.is_none(),
        ),
    }
}

// The first of the functions that isn't there.
fn missing_function(module: &Module, funcs: &[u32]) -> Option<ValidKind>
    ensures { result ≡ any_lacking FuncIndex (type_indices «module».now) funcs.now }
{
    for f in funcs {
        if type_index(module, *f).is_none() {
            return Some(ValidKind::FuncIndex);
        }
    }
    None
}

// What is wrong with an element segment.
fn element_fault(module: &Module, element: &Element) -> Option<ValidKind>
    ensures { result ≡ fault_of «module».now (ElementsOf element.now) }
{
    if module.table.is_none() {
        return Some(ValidKind::NoTable);
    }
    if !is_constant(ValType::I32, element.offset.slice()) {
        return Some(ValidKind::Constant);
    }
    missing_function(module, element.funcs.slice())
}

// What is wrong with a data segment.
fn segment_fault(module: &Module, segment: &Segment) -> Option<ValidKind>
    ensures { result ≡ fault_of «module».now (DataOf segment.now) }
{
    if module.memory.is_none() {
        return Some(ValidKind::NoMemory);
    }
    unless(
        ValidKind::Constant,
        is_constant(ValType::I32, segment.offset.slice()),
    )
}

// The first import of a type that isn't there.
fn check_imports(module: &Module) -> Option<ValidFault>
    requires { AreCounted «module».now }
    ensures { Tells «module».now (import_checks «module».now) result }
{
    for (item, import) in module.imports.slice().iter().enumerate() {
        if let Some(kind) = type_fault(module, import.ftype) {
            return Some(fault(2, item, kind));
        }
    }
    None
}

// The first function of a type that isn't there.
fn check_functions(module: &Module) -> Option<ValidFault>
    requires { AreCounted «module».now }
    ensures { Tells «module».now (function_checks «module».now) result }
{
    for (item, func) in module.funcs.slice().iter().enumerate() {
        if let Some(kind) = type_fault(module, func.ftype) {
            return Some(fault(3, item, kind));
        }
    }
    None
}

// Whether the table's limits or the memory's are out of their ranges.
fn check_sizes(module: &Module) -> Option<ValidFault>
    ensures { Tells «module».now (size_checks «module».now) result }
{
    if let Some(limits) = module.table {
        if !within(1 << 32, limits) {
            return Some(fault(4, 0, ValidKind::Limits));
        }
    }
    if let Some(limits) = module.memory {
        if !within(1 << 16, limits) {
            return Some(fault(5, 0, ValidKind::Limits));
        }
    }
    None
}

// The first global whose initial value isn't one constant of its type.
fn check_globals(module: &Module) -> Option<ValidFault>
    requires { AreCounted «module».now }
    ensures { Tells «module».now (global_checks «module».now) result }
{
    for (item, global) in module.globals.slice().iter().enumerate() {
        if let Some(kind) = global_fault(global) {
            return Some(fault(6, item, kind));
        }
    }
    None
}

// The first faulty export. The names so far are kept in order, so that many exports take little time each.
fn check_exports(alloc: Global, module: &Module) -> Result<Option<ValidFault>, AllocError>
    requires { AreCounted «module».now }
    ensures { IfOk result (Tells «module».now (export_checks «module».now)) }
{
    let mut names = BTreeSet::new(alloc);
    for (item, export) in module.exports.slice().iter().enumerate() {
        let is_new = names.insert(export.name.slice())?;
        if let Some(kind) = export_fault(module, is_new, export) {
            return Ok(Some(fault(7, item, kind)));
        }
    }
    Ok(None)
}

// Whether the start function is faulty.
fn check_start(module: &Module) -> Option<ValidFault>
    ensures { Tells «module».now (start_checks «module».now) result }
{
    let Some(x) = module.start else {
        return None;
    };
    match start_fault(module, x) {
        None => None,
        Some(kind) => Some(fault(8, 0, kind)),
    }
}

// The first faulty element segment.
fn check_elements(module: &Module) -> Option<ValidFault>
    requires { AreCounted «module».now }
    ensures { Tells «module».now (element_checks «module».now) result }
{
    for (item, element) in module.elements.slice().iter().enumerate() {
        if let Some(kind) = element_fault(module, element) {
            return Some(fault(9, item, kind));
        }
    }
    None
}

// The first faulty data segment.
pub fn check_segments(module: &Module) -> Option<ValidFault>
    requires { AreCounted «module».now }
    ensures { Tells «module».now (data_checks «module».now) result }
{
    for (item, segment) in module.segments.slice().iter().enumerate() {
        if let Some(kind) = segment_fault(module, segment) {
            return Some(fault(11, item, kind));
        }
    }
    None
}

// The first fault of what stands in front of the bodies.
pub fn check_declarations(alloc: Global, module: &Module) -> Result<Option<ValidFault>, AllocError>
    requires { AreCounted «module».now }
    ensures { IfOk result (Tells «module».now (declaration_checks «module».now)) }
{
    if let Some(fault) = check_imports(module) {
        return Ok(Some(fault));
    }
    if let Some(fault) = check_functions(module) {
        return Ok(Some(fault));
    }
    if let Some(fault) = check_sizes(module) {
        return Ok(Some(fault));
    }
    if let Some(fault) = check_globals(module) {
        return Ok(Some(fault));
    }
    if let Some(fault) = check_exports(alloc, module)? {
        return Ok(Some(fault));
    }
    if let Some(fault) = check_start(module) {
        return Ok(Some(fault));
    }
    Ok(check_elements(module))
}
