//! Modules that are valid.

ghost use Rattle.std.specs.Prelude.{◌≡◌, ℕ, ◌<◌, Some, None, OnOk, IfOk, IfSome, IfNone, length};
ghost use Rattle.mv_calls.specs.Or.{IfFault, IsFault};
ghost use Rattle.mv_syntax.specs.Tree.{IsClosedCode};
ghost use Rattle.mv_syntax.specs.Counted.{AreCounted, IsShort};
ghost use Rattle.mv_validator.specs.Valid.{Each, IsTypedFunc, IsValid};
ghost use Rattle.mv_validator.specs.Checks.{BodyFails, Tells, IsFirstFaultOf, body_checks, checks};

use crate::body::{BodyFault, check_body};
use crate::declarations::{check_declarations, check_segments, number};
use mv_calls::Or;
use mv_syntax::{Func, Module, ValidFault};
use std::alloc::{AllocError, Global};
use std::marker::Model;

/// A module that is valid by WebAssembly Core 1.0, section 3.
#[derive(Debug, Drop)]
pub struct ValidModule {
    module: Module,
}

impl Model for ValidModule {
    ghost use Rattle.mv_syntax.specs.Sections.{Parts};

    ghost Value = { Parts };

    ghost use Rattle.mv_validator.specs.Valid.{IsValid};

    ghost view = { λ v. v.«module» };

    ghost invariant = { λ v. IsValid v.«module» };
}

impl ValidModule {
    /// The module that was validated.
    pub fn module(&self) -> &Module
        ensures same { result.now ≡ self.now }
        // It is valid.
        ensures valid { IsValid result.now }
    {
        &self.module
    }

    /// The module that was validated, given back.
    pub fn into_module(self) -> Module
        ensures same { result ≡ self }
        // It is valid.
        ensures valid { IsValid result }
    {
        self.module
    }
}

// The first faulty instruction of the function's body, if it hasn't the type that it declares.
fn check_func(alloc: Global, module: &Module, func: &Func) -> Result<Option<BodyFault>, AllocError>
    requires declared { func.now.ftype < length «module».now.types }
    requires closed { IsClosedCode func.now.code }
    ensures typed { IfOk result (λ fault. IfNone fault (IsTypedFunc «module».now func.now)) }
    ensures faulty { IfOk result (λ fault. IfSome fault (λ f. BodyFails «module».now func.now f.at f.kind)) }
{
    let ftype = &module.types.slice()[func.ftype as usize];
    check_body(alloc, module, ftype, &func.locals, func.code.slice())
}

// The first function whose body hasn't its type.
fn check_bodies(alloc: Global, module: &Module) -> Result<Option<ValidFault>, AllocError>
    requires counted { AreCounted «module».now }
    requires short { Each «module».now.funcs IsShort }
    requires declared { Each «module».now.funcs (λ f. f.ftype < length «module».now.types) }
    requires closed { Each «module».now.funcs (λ f. IsClosedCode f.code) }
    ensures { IfOk result (Tells «module».now (body_checks «module».now)) }
{
    for (item, func) in module.funcs.slice().iter().enumerate() {
        if let Some(found) = check_func(alloc, module, func)? {
            return Ok(Some(ValidFault {
                part: 10,
                item: number(item),
                at: number(found.at),
                kind: found.kind,
            }));
        }
    }
    Ok(None)
}

// The first fault of the module, if it has one.
fn first_fault(alloc: Global, module: &Module) -> Result<Option<ValidFault>, AllocError>
    ensures { IfOk result (Tells «module».now (checks «module».now)) }
{
    module.counted();
    module.keeps();
    if let Some(fault) = check_declarations(alloc, module)? {
        return Ok(Some(fault));
    }
    if let Some(fault) = check_bodies(alloc, module)? {
        return Ok(Some(fault));
    }
    Ok(check_segments(module))
}

/// The module, where it is valid by WebAssembly Core 1.0, section 3, or its first fault in the order of the sections' ids
/// (docs/FORMATS.md, "Valid modules"). `OutOfMemory` where memory runs out.
pub fn validate(alloc: Global, module: Module) -> Result<ValidModule, Or<ValidFault>>
    // It is the same module.
    ensures same { IfOk result (λ valid. valid ≡ «module») }
    // What is answered is valid,
    ensures valid { IfOk result (λ valid. IsValid valid) }
    // and what is refused isn't.
    ensures refused { IsFault result → IsValid «module» → ⊥ }
    // Which fault it is.
    ensures first { IfFault result (λ fault. IsFirstFaultOf «module» fault) }
{
    match first_fault(alloc, &module) {
        Err(_) => Err(Or::OutOfMemory),
        Ok(Some(fault)) => Err(Or::Fault(fault)),
        Ok(None) => Ok(ValidModule { module }),
    }
}
