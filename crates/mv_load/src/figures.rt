//! The figures of a log.
ghost use Rattle.std.specs.Prelude.{◌≡◌, ◌+◌};
ghost use Rattle.mv_history.specs.Statuses.{marked, status_after};
ghost use Rattle.mv_history.specs.declared.status.Status.{Status};
ghost use Rattle.mv_load.specs.Figures.{bytes_in, calls_in, capped, figures_of as figures_in, forks_in, promotes_in, read_bytes};

use mv_calls::{Call, Item, Reply};
use mv_history::{Entry, Mark};
use mv_orders::Stage;

/// What a log comes to, in figures. Each number stands still at the greatest of its type.
#[derive(Clone, Copy, Debug, PartialEq, Eq)]
pub struct Figures {
    /// How many calls were made.
    pub calls: u64,
    /// How many bytes reads were given.
    pub bytes: u64,
    /// How often a copy of the leader was sent to a follower.
    pub forks: u64,
    /// How often a new version was let lead.
    pub promotes: u64,
    /// The stage behind the last entry.
    pub stage: Stage,
}

/// The bytes that a call was given, if it is a read.
fn bytes_read(item: &Item) -> u64
    ensures { result ≡ read_bytes item.now.0 item.now.1 }
{
    match (&item.call, &item.reply) {
        (Call::Read { .. }, Reply::Bytes(bytes)) => bytes.slice().len() as u64,
        _ => 0,
    }
}

/// The stage behind a mark.
fn stage_marked(stage: Stage, mark: &Mark) -> Stage
    ensures { (st : Status) → st.stage ≡ stage → result ≡ (marked st mark.now).stage }
{
    match mark {
        Mark::Fork { .. } => Stage::OldLeads,
        Mark::Promote => Stage::NewLeads,
        Mark::Back | Mark::Discard { .. } => Stage::OldAlone,
        Mark::Over | Mark::Finish | Mark::Dropped { .. } => Stage::NewAlone,
        Mark::NoCopy { .. } | Mark::Hand { .. } | Mark::End { .. } => stage,
    }
}

/// The stage behind an entry.
fn stage_behind(stage: Stage, entry: &Entry) -> Stage
    ensures { (st : Status) → st.stage ≡ stage → result ≡ (status_after st entry.now).stage }
{
    match entry {
        Entry::Mark(mark) => stage_marked(stage, mark),
        Entry::Call { .. } | Entry::Point | Entry::Order { .. } => stage,
    }
}

/// How many forks and promotions an entry is.
fn turns_in(entry: &Entry) -> (u64, u64)
    ensures forks { result.0 ≡ forks_in entry.now }
    ensures promotes { result.1 ≡ promotes_in entry.now }
{
    match entry {
        Entry::Mark(Mark::Fork { .. }) => (1, 0),
        Entry::Mark(Mark::Promote) => (0, 1),
        _ => (0, 0),
    }
}

/// How many calls and bytes an entry is.
fn given_in(entry: &Entry) -> (u64, u64)
    ensures calls { result.0 ≡ calls_in entry.now }
    ensures bytes { result.1 ≡ bytes_in entry.now }
{
    match entry {
        Entry::Call { item } => (1, bytes_read(item)),
        _ => (0, 0),
    }
}

/// The figures with one entry more.
fn with_entry(figures: Figures, entry: &Entry) -> Figures
    ensures calls { result.calls ≡ capped (figures.calls + calls_in entry.now) }
    ensures bytes { result.bytes ≡ capped (figures.bytes + bytes_in entry.now) }
    ensures forks { result.forks ≡ capped (figures.forks + forks_in entry.now) }
    ensures promotes { result.promotes ≡ capped (figures.promotes + promotes_in entry.now) }
    ensures stage { (st : Status) → st.stage ≡ figures.stage → result.stage ≡ (status_after st entry.now).stage }
{
    let (calls, bytes) = given_in(entry);
    let (forks, promotes) = turns_in(entry);
    Figures {
        calls: figures.calls.saturating_add(calls),
        bytes: figures.bytes.saturating_add(bytes),
        forks: figures.forks.saturating_add(forks),
        promotes: figures.promotes.saturating_add(promotes),
        stage: stage_behind(figures.stage, entry),
    }
}

/// The figures of a log's entries.
pub fn figures_of(entries: &[Entry]) -> Figures
    ensures { result ≡ figures_in entries.now }
{
    let mut figures = Figures {
        calls: 0,
        bytes: 0,
        forks: 0,
        promotes: 0,
        stage: Stage::OldAlone,
    };
    for i in 0..entries.len() {
        figures = with_entry(figures, &entries[i]);
    }
    figures
}
