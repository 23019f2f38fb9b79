//! What can be wrong with a module, from its bytes to its birth.

use mv_calls::Trap;
use thiserror::Error;

/// What is wrong with the bytes of a module (docs/FORMATS.md, "Modules").
#[derive(Clone, Copy, PartialEq, Eq, Debug)]
pub enum ReadKind {
    /// The file doesn't begin with the magic number and the version.
    Magic,
    /// The file ends in its preamble or in the header of a section, or a section's size passes its end.
    Cut,
    /// A section stands behind one that must follow it, or stands twice.
    Order,
    /// Contents pass their size, or end before it.
    Size,
    /// A number has too many bytes, or wrong unused bits.
    Leb,
    /// A name isn't UTF-8.
    Utf8,
    /// No form allows the byte here.
    Kind,
    /// A floating-point type or instruction.
    Float,
    /// A feature that came after WebAssembly 1.0.
    LaterFeature,
    /// The counts of functions and of bodies differ.
    Count,
    /// A number is above a limit of this host.
    Limit,
}

/// The first fault of a module's bytes, from the left.
#[derive(Clone, Copy, PartialEq, Eq, Debug, Error)]
#[error("{kind:?} at byte {place}")]
pub struct ReadFault {
    /// How many bytes of the file stand before the fault.
    pub place: u64,
    pub kind: ReadKind,
}

/// Why a module that can be read isn't valid (WebAssembly Core 1.0, 3).
#[derive(Clone, Copy, PartialEq, Eq, Debug)]
pub enum ValidKind {
    /// There is no such type.
    TypeIndex,
    /// There is no such function.
    FuncIndex,
    /// A table is needed, and there is none.
    NoTable,
    /// A memory is needed, and there is none.
    NoMemory,
    /// There is no such global.
    GlobalIndex,
    /// There is no such local.
    LocalIndex,
    /// There is no such label.
    LabelIndex,
    /// An operand is missing, has another type or is left over; the labels of a `br_table` differ in type; or an `if`
    /// with a result has no `else`.
    Operand,
    /// A constant global is set.
    Immutable,
    /// The alignment is above the natural one.
    Align,
    /// An initial value or an offset isn't one constant of its type.
    Constant,
    /// The minimum is above the maximum, or a memory's maximum is above 65,536.
    Limits,
    /// An export has the name of one before it.
    ExportName,
    /// The start function has a parameter or a result.
    StartType,
}

/// The first fault of a module that can be read, in the order of its sections.
#[derive(Clone, Copy, PartialEq, Eq, Debug, Error)]
#[error("{kind:?} in item {item} of section {part}, at instruction {at}")]
pub struct ValidFault {
    /// The id of the section.
    pub part: u8,
    /// The index in the section, from 0.
    pub item: u32,
    /// The index of the instruction in its body, `else` and `end` counted, or 0.
    pub at: u32,
    pub kind: ValidKind,
}

/// Why a module can't be started (4.5.4).
#[derive(Clone, Copy, PartialEq, Eq, Debug)]
pub enum StartFault {
    /// There is no exported function `_start` without parameters and results.
    NoEntry,
    /// This host has no function of the import's name.
    UnknownImport { import: u32 },
    /// The host's function of the import's name has another type.
    ImportType { import: u32 },
    /// An element segment passes the table's end.
    ElementBounds { segment: u32 },
    /// A data segment passes the memory's end.
    DataBounds { segment: u32 },
    /// The start function trapped.
    Trap(Trap),
}

/// Why no guest comes to be of a module's bytes.
#[derive(Clone, Copy, PartialEq, Eq, Debug)]
pub enum BornFault {
    /// The bytes are no module.
    Read(ReadFault),
    /// The module isn't valid.
    Valid(ValidFault),
    /// The module can't be started.
    Start(StartFault),
    /// There is no exported transformer of its type.
    NoTransform,
    /// There is no exported function of its type with which the new version goes on.
    NoResume,
    /// The transformer trapped.
    Transform(Trap),
    /// The transformer answered this code, which isn't 0.
    Code(u32),
}
