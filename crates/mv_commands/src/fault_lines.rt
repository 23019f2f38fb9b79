//! The lines of faults of files: the kind by its name, and where it stands (docs/FORMATS.md, "Fault lines").
ghost use Rattle.std.specs.Prelude.{◌≡◌, [], ◌++◌, ◌∷◌, IfOk, OnOk, decimal};
ghost use Rattle.mv_commands.specs.Lines.{IsFixedFinding, record_kind_text, text_kind_text, fault_text, numbers_text, refusal_text, start_fault_text, schedule_fault_text, finding_text};

use crate::ending::Finding;
use itoa::Buffer;
use mv_calls::{Bytes, OutOfMemory};
use mv_record::RecordKind;
use mv_schedule::ScheduleFault;
use mv_show::{read_kind_name, rule_kind_name, trap_name, valid_kind_name};
use mv_syntax::{BornFault, StartFault};
use mv_text::TextKind;
use std::alloc::Global;

/// The name of a kind of fault of a log file.
fn record_kind_name(kind: RecordKind) -> &'static str
    ensures { result.now ≡ record_kind_text kind }
{
    match kind {
        RecordKind::Magic => "Magic",
        RecordKind::Cut => "Cut",
        RecordKind::Code => "Code",
        RecordKind::Length => "Length",
        RecordKind::Suit => "Suit",
        RecordKind::Limit => "Limit",
    }
}

/// The name of a kind of fault of an assembler text.
fn text_kind_name(kind: TextKind) -> &'static str
    ensures { result.now ≡ text_kind_text kind }
{
    match kind {
        TextKind::Size => "Size",
        TextKind::Word => "Word",
        TextKind::Place => "Place",
        TextKind::Count => "Count",
        TextKind::Quote => "Quote",
        TextKind::Number => "Number",
        TextKind::Nest => "Nest",
        TextKind::Unended => "Unended",
    }
}

/// Adds a number in decimal digits.
pub fn add_number(line: &mut Vec<u8>, number: u64) -> Result<(), OutOfMemory>
    ensures { OnOk result (line.new.items ≡ line.old.items ++ decimal number) }
{
    let mut digits = Buffer::new();
    let text = digits.format(number);
    line.extend_from_slice(text.as_bytes())?;
    Ok(())
}

/// Adds numbers, a space before each.
fn add_numbers(line: &mut Vec<u8>, numbers: &[u64]) -> Result<(), OutOfMemory>
    ensures { OnOk result (line.new.items ≡ line.old.items ++ numbers_text numbers.now) }
{
    for number in numbers {
        line.push(b' ')?;
        add_number(line, *number)?;
    }
    Ok(())
}

/// The line of a file's fault.
fn fault_line(
    alloc: Global,
    path: &Bytes,
    kind: &str,
    numbers: &[u64],
) -> Result<Vec<u8>, OutOfMemory>
    ensures { IfOk result (λ line. line.items ≡ fault_text path.now kind.now numbers.now) }
{
    let mut line = Vec::new(alloc);
    line.extend_from_slice(b"mv: ")?;
    line.extend_from_slice(path.slice())?;
    line.extend_from_slice(b": ")?;
    line.extend_from_slice(kind.as_bytes())?;
    add_numbers(&mut line, numbers)?;
    line.push(b'\n')?;
    Ok(line)
}

/// The line of a file's fault that stands at one number.
fn indexed_line(alloc: Global, path: &Bytes, kind: &str, index: u32) -> Result<Vec<u8>, OutOfMemory>
    ensures { IfOk result (λ line. line.items ≡ fault_text path.now kind.now (index ∷ [])) }
{
    let index = u64::from(index);
    fault_line(alloc, path, kind, &[index])
}

/// The line of a fault of a start.
fn start_fault_line(alloc: Global, path: &Bytes, fault: StartFault) -> Result<Vec<u8>, OutOfMemory>
    ensures { IfOk result (λ line. line.items ≡ start_fault_text path.now fault) }
{
    match fault {
        StartFault::NoEntry => fault_line(alloc, path, "NoEntry", &[]),
        StartFault::UnknownImport { import } => indexed_line(alloc, path, "UnknownImport", import),
        StartFault::ImportType { import } => indexed_line(alloc, path, "ImportType", import),
        StartFault::ElementBounds { segment } => {
            indexed_line(alloc, path, "ElementBounds", segment)
        }
        StartFault::DataBounds { segment } => indexed_line(alloc, path, "DataBounds", segment),
        StartFault::Trap(trap) => fault_line(alloc, path, trap_name(trap), &[]),
    }
}

/// The line of a module of which no guest starts, or is born.
pub fn refusal_line(alloc: Global, path: &Bytes, fault: BornFault) -> Result<Vec<u8>, OutOfMemory>
    ensures { IfOk result (λ line. line.items ≡ refusal_text path.now fault) }
{
    match fault {
        BornFault::Read(fault) => {
            fault_line(alloc, path, read_kind_name(fault.kind), &[fault.place])
        }
        BornFault::Valid(fault) => {
            let part = u64::from(fault.part);
            let item = u64::from(fault.item);
            let at = u64::from(fault.at);
            fault_line(alloc, path, valid_kind_name(fault.kind), &[part, item, at])
        }
        BornFault::Start(fault) => start_fault_line(alloc, path, fault),
        BornFault::NoTransform => fault_line(alloc, path, "NoTransform", &[]),
        BornFault::NoResume => fault_line(alloc, path, "NoResume", &[]),
        BornFault::Transform(trap) => fault_line(alloc, path, trap_name(trap), &[]),
        BornFault::Code(code) => indexed_line(alloc, path, "Code", code),
    }
}

/// The line of a schedule's fault.
fn schedule_fault_line(
    alloc: Global,
    path: &Bytes,
    fault: ScheduleFault,
) -> Result<Vec<u8>, OutOfMemory>
    ensures { IfOk result (λ line. line.items ≡ schedule_fault_text path.now fault) }
{
    match fault {
        ScheduleFault::Letter { place } => fault_line(alloc, path, "Letter", &[place]),
        ScheduleFault::Limit => fault_line(alloc, path, "Limit", &[0]),
    }
}

/// The line of what a file is found to be, where it has to be made.
pub fn finding_line(alloc: Global, path: &Bytes, finding: Finding) -> Result<Vec<u8>, OutOfMemory>
    requires { IsFixedFinding finding → ⊥ }
    ensures { IfOk result (λ line. line.items ≡ finding_text path.now finding) }
{
    match finding {
        Finding::Refused(fault) => refusal_line(alloc, path, fault),
        Finding::Valid => unreachable!(),
        Finding::BadRules(fault) => {
            let line = u64::from(fault.line);
            fault_line(alloc, path, rule_kind_name(fault.kind), &[line])
        }
        Finding::Rules(count) => {
            let mut line = Vec::from_slice(alloc, b"rules ")?;
            add_number(&mut line, count as u64)?;
            line.push(b'\n')?;
            Ok(line)
        }
        Finding::BadSchedule(fault) => schedule_fault_line(alloc, path, fault),
        Finding::BadText(fault) => {
            let line = u64::from(fault.line);
            fault_line(alloc, path, text_kind_name(fault.kind), &[line])
        }
        Finding::BadLog(fault) => {
            fault_line(alloc, path, record_kind_name(fault.kind), &[fault.place])
        }
    }
}
