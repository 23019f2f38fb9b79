//! Stages of an update, words of accepted orders, and the reasons why a follower was dropped, each with
//! the name that it has in a line (docs/FORMATS.md, "Orders").

ghost use Rattle.std.specs.Prelude.{◌≡◌};
ghost use Rattle.mv_orders.specs.Reply.{stage_name as spec_stage_name, word_name as spec_word_name, last_name as spec_last_name};

/// Where an update stands.
#[derive(Clone, Copy, PartialEq, Eq, Debug)]
pub enum Stage {
    OldAlone,
    OldLeads,
    NewLeads,
    NewAlone,
}

/// An accepted order other than status.
#[derive(Clone, Copy, PartialEq, Eq, Debug)]
pub enum Word {
    Update,
    Promote,
    Discard,
    Finish,
    Back,
    Halt,
}

/// Why the last follower was dropped.
#[derive(Clone, Copy, PartialEq, Eq, Debug)]
pub enum Last {
    Never,
    Trap,
    Mismatch,
    Refused,
    Rules,
    Order,
    Memory,
}

/// The name of a stage in a reply.
pub(crate) fn stage_name(stage: Stage) -> &'static str
    ensures { result.now ≡ spec_stage_name stage }
{
    match stage {
        Stage::OldAlone => "OldAlone",
        Stage::OldLeads => "OldLeads",
        Stage::NewLeads => "NewLeads",
        Stage::NewAlone => "NewAlone",
    }
}

/// The word of an order, which is its name in a reply.
pub(crate) fn word_name(word: Word) -> &'static str
    ensures { result.now ≡ spec_word_name word }
{
    match word {
        Word::Update => "update",
        Word::Promote => "promote",
        Word::Discard => "discard",
        Word::Finish => "finish",
        Word::Back => "back",
        Word::Halt => "halt",
    }
}

/// The name of a reason in a reply.
pub(crate) fn last_name(last: Last) -> &'static str
    ensures { result.now ≡ spec_last_name last }
{
    match last {
        Last::Never => "never",
        Last::Trap => "trap",
        Last::Mismatch => "mismatch",
        Last::Refused => "refused",
        Last::Rules => "rules",
        Last::Order => "order",
        Last::Memory => "memory",
    }
}
