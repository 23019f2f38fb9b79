//! How a guest stops other than by its own will.

/// Why a guest trapped. The first seven are the traps of WebAssembly Core 1.0, 4.4; the others are
/// this host's own.
#[derive(Clone, Copy, PartialEq, Eq, Debug)]
pub enum Trap {
    /// The instruction `unreachable` was run.
    Unreachable,
    /// An integer was divided by zero.
    DivideByZero,
    /// The quotient of a signed division doesn't fit its type.
    Overflow,
    /// An access passed the end of the memory.
    Bounds,
    /// `call_indirect` named an entry past the end of the table.
    TableIndex,
    /// `call_indirect` named an entry that holds no function.
    EmptyElement,
    /// `call_indirect` named a function of another type.
    IndirectType,
    /// A call at 1,024 frames.
    Frames,
    /// More than 65,536 operands were to stand on the stack.
    Operands,
    /// More than 50,000,000 instructions were to be run between two events.
    Spent,
    /// `live.old_global` named a global that the old module doesn't export.
    OldGlobal,
    /// An import was called at a time when it doesn't serve.
    NotNow,
    /// A transformer made a call to the outside.
    CallInTransform,
}
