//! Functions that are not ended.
ghost use Rattle.std.specs.Prelude.{◌≡◌, ◌++◌, ◌∷◌, [], IfOk, None, Some, List, Bool, Option, reverse, length, ◌==◌, if◌then◌else◌};
ghost use Rattle.mv_calls.specs.Or.{IfFault};
ghost use Rattle.mv_statements.specs.declared.fault.TextKind.TheVariants.{Nest};
ghost use Rattle.mv_syntax.specs.Nesting.{nest};
ghost use Rattle.mv_text.specs.Assembly.{new_body, ended, stays_open};

use mv_calls::{Or, OutOfMemory};
use mv_statements::TextKind;
use mv_syntax::{Code, Func, Instr, Locals};
use std::alloc::{AllocError, Global};
use std::marker::Model;

/// A function of which no `endfunc` was read.
#[derive(Drop)]
pub struct Unended {
    ftype: u32,
    locals: Locals,
    code: Vec<Instr>,
    /// The blocks that are open, the innermost last: whether an `else` may come.
    opens: Vec<bool>,
}

impl Model for Unended {
    ghost use Rattle.std.specs.Prelude.{reverse};
    ghost use Rattle.mv_text.specs.States.{Body};

    ghost Value = { Body };

    ghost view = { λ f. record { ftype = f.ftype; locals = f.locals; code = f.code.items; opens = reverse f.opens.items } };
}

/// Takes the blocks that are open, the innermost last, past an instruction; no where it has no place among them.
fn nest(opens: &mut Vec<bool>, instr: &Instr) -> Result<bool, AllocError>
    ensures { IfOk result (λ good. stays_open (nest (reverse opens.old.items) instr.now) ≡ (if good then Some (reverse opens.new.items) else None)) }
{
    match instr {
        Instr::Block(_) | Instr::Loop(_) => opens.push(false)?,
        Instr::If(_) => opens.push(true)?,
        Instr::Else => match opens.pop() {
            Some(true) => opens.push(false)?,
            _ => return Ok(false),
        },
        Instr::End => return Ok(opens.pop().is_some()),
        _ => {}
    }
    Ok(true)
}

impl Unended {
    /// A function without instructions yet.
    pub fn new(alloc: Global, ftype: u32, locals: Locals) -> Unended
        ensures { result ≡ new_body ftype locals }
    {
        Unended {
            ftype,
            locals,
            code: Vec::new(alloc),
            opens: Vec::new(alloc),
        }
    }

    /// Whether no block is open.
    pub fn is_flat(&self) -> bool
        ensures { result ≡ (length self.now.opens == 0) }
    {
        self.opens.is_empty()
    }

    /// One instruction more. `Nest` comes where it has no place among the blocks.
    pub fn add(self, instr: Instr) -> Result<Unended, Or<TextKind>>
        ensures placed { IfOk result (λ next. stays_open (nest self.opens instr) ≡ Some next.opens) }
        ensures added { IfOk result (λ next. next ≡ record self { code = self.code ++ instr ∷ []; opens = next.opens }) }
        ensures fault { IfFault result (λ kind. (stays_open (nest self.opens instr) ≡ None) × (kind ≡ Nest)) }
    {
        let Unended {
            ftype,
            locals,
            mut code,
            mut opens,
        } = self;
        if !nest(&mut opens, &instr)? {
            return Err(Or::Fault(TextKind::Nest));
        }
        code.push(instr)?;
        Ok(Unended {
            ftype,
            locals,
            code,
            opens,
        })
    }

    /// The function with its last `end`.
    pub fn end(self) -> Result<Func, OutOfMemory>
        ensures { IfOk result (λ func. func ≡ ended self) }
    {
        let Unended {
            ftype,
            locals,
            mut code,
            opens: _,
        } = self;
        code.push(Instr::End)?;
        Ok(Func {
            ftype,
            locals,
            code: Code::from_vec(code),
        })
    }
}
