//! The names of traps, of kinds of faults and of sides.
ghost use Rattle.std.specs.Prelude.{◌≡◌};
ghost use Rattle.mv_show.specs.Names.{trap_text, read_kind_text, valid_kind_text, rule_kind_text, side_text};

use mv_calls::Trap;
use mv_history::Side;
use mv_rules::RuleKind;
use mv_syntax::{ReadKind, ValidKind};

/// The name of a trap.
pub fn trap_name(trap: Trap) -> &'static str
    ensures { result.now ≡ trap_text trap }
{
    match trap {
        Trap::Unreachable => "Unreachable",
        Trap::DivideByZero => "DivideByZero",
        Trap::Overflow => "Overflow",
        Trap::Bounds => "Bounds",
        Trap::TableIndex => "TableIndex",
        Trap::EmptyElement => "EmptyElement",
        Trap::IndirectType => "IndirectType",
        Trap::Frames => "Frames",
        Trap::Operands => "Operands",
        Trap::Spent => "Spent",
        Trap::OldGlobal => "OldGlobal",
        Trap::NotNow => "NotNow",
        Trap::CallInTransform => "CallInTransform",
    }
}

/// The name of a kind of fault of a module's bytes.
pub fn read_kind_name(kind: ReadKind) -> &'static str
    ensures { result.now ≡ read_kind_text kind }
{
    match kind {
        ReadKind::Magic => "Magic",
        ReadKind::Cut => "Cut",
        ReadKind::Order => "Order",
        ReadKind::Size => "Size",
        ReadKind::Leb => "Leb",
        ReadKind::Utf8 => "Utf8",
        ReadKind::Kind => "Kind",
        ReadKind::Float => "Float",
        ReadKind::LaterFeature => "LaterFeature",
        ReadKind::Count => "Count",
        ReadKind::Limit => "Limit",
    }
}

/// The name of a kind of fault of a module.
pub fn valid_kind_name(kind: ValidKind) -> &'static str
    ensures { result.now ≡ valid_kind_text kind }
{
    match kind {
        ValidKind::TypeIndex => "TypeIndex",
        ValidKind::FuncIndex => "FuncIndex",
        ValidKind::NoTable => "NoTable",
        ValidKind::NoMemory => "NoMemory",
        ValidKind::GlobalIndex => "GlobalIndex",
        ValidKind::LocalIndex => "LocalIndex",
        ValidKind::LabelIndex => "LabelIndex",
        ValidKind::Operand => "Operand",
        ValidKind::Immutable => "Immutable",
        ValidKind::Align => "Align",
        ValidKind::Constant => "Constant",
        ValidKind::Limits => "Limits",
        ValidKind::ExportName => "ExportName",
        ValidKind::StartType => "StartType",
    }
}

/// The name of a kind of fault of a rules file.
pub fn rule_kind_name(kind: RuleKind) -> &'static str
    ensures { result.now ≡ rule_kind_text kind }
{
    match kind {
        RuleKind::Size => "Size",
        RuleKind::Header => "Header",
        RuleKind::Shape => "Shape",
        RuleKind::Many => "Many",
        RuleKind::Empty => "Empty",
        RuleKind::Word => "Word",
        RuleKind::Number => "Number",
        RuleKind::Quote => "Quote",
        RuleKind::Name => "Name",
        RuleKind::Twice => "Twice",
        RuleKind::Unbound => "Unbound",
        RuleKind::Reads => "Reads",
        RuleKind::Accepts => "Accepts",
        RuleKind::Guard => "Guard",
    }
}

/// The name of a list of rules.
pub(crate) fn side_name(side: Side) -> &'static str
    ensures { result.now ≡ side_text side }
{
    match side {
        Side::Forward => "forward",
        Side::Reverse => "reverse",
    }
}
