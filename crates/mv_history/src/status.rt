//! What of a run no guest knows: the stage, the counts, what is wanted and asked.
ghost use Rattle.std.specs.Prelude.{◌≡◌, ◌<◌, ◌^◌, ◌+◌, ◌-◌, IfSome, min};
ghost use Rattle.mv_orders.specs.Reply.{IsText};
ghost use Rattle.mv_history.specs.Payload.{payload_of};
ghost use Rattle.mv_history.specs.Statuses.{answered, changed, early_reply, first_status, is_alone as alone_stage, is_within, kind_of, marked, only_in as only, is_old_leads, is_new_leads, point_leads, status_after, update_refusal, urgent_of};

use crate::log::{Cause, Entry, How, Mark, Why};
use mv_orders::{Last, Order, OrderReply, Stage, Word};

/// The most entries of a log that a guest may go on with.
pub const ENTRY_LIMIT: u64 = 999_990;

/// The most bytes of payload of a log that a guest may go on with.
pub const PAYLOAD_LIMIT: u64 = 268_173_312;

/// The most updates that are accepted.
pub const UPDATE_LIMIT: u32 = 64;

/// What the leader does at an update point.
#[derive(Clone, Copy, PartialEq, Eq, Debug)]
pub enum AtPoint {
    /// It sends a copy of itself, for the follower of this update.
    Forks(u32),
    /// It asks for a hand-over.
    Hands(Why),
    /// It goes on.
    Passes,
}

/// What is wanted at once, before the leader goes on.
#[derive(Clone, Copy, PartialEq, Eq, Debug)]
pub enum Urgent {
    Nothing,
    /// To give the follower up, by the order of this entry.
    Discard(u64),
    /// To let the old version go.
    Finish,
    /// To end the run.
    Halt,
}

/// An accepted order that isn't carried out yet.
#[derive(Clone, Copy, PartialEq, Eq, Debug)]
pub struct Wanted {
    pub word: Word,
    /// The number of the order's entry.
    pub n: u64,
    /// The number of the update, or 0 for another word.
    pub update: u32,
}

/// A hand-over that is asked for.
#[derive(Clone, Copy, PartialEq, Eq, Debug)]
pub struct Asked {
    pub why: Why,
    /// The number of the entry that asks for it.
    pub n: u64,
}

/// What of a run no guest knows.
#[derive(Clone, Copy, PartialEq, Eq, Debug)]
pub struct Status {
    pub stage: Stage,
    /// How many entries the run has.
    pub number: u64,
    /// How many of these stand in the log, from its base on.
    pub since: u64,
    /// The bytes of payload of these. It stands still at the greatest number of its type.
    pub weight: u64,
    /// How many updates the run has accepted.
    pub updates: u32,
    /// How many of these stand in the log.
    pub fresh: u32,
    /// The number of the follower's update, or 0 where there is no follower.
    pub follower: u32,
    pub wanted: Option<Wanted>,
    pub asked: Option<Asked>,
    /// Why the last follower was given up.
    pub last: Last,
    pub ended: Option<How>,
}

impl Status {
    /// The status of a run without an entry.
    pub fn new() -> Status
        ensures first { result ≡ first_status }
    {
        Status {
            stage: Stage::OldAlone,
            number: 0,
            since: 0,
            weight: 0,
            updates: 0,
            fresh: 0,
            follower: 0,
            wanted: None,
            asked: None,
            last: Last::Never,
            ended: None,
        }
    }

    /// Whether the log is within its limits, so that the guest may go on.
    pub fn is_within_limits(&self) -> bool
        ensures within { result ≡ is_within self.now }
    {
        self.since < ENTRY_LIMIT && self.weight <= PAYLOAD_LIMIT
    }

    /// Whether one version is alone.
    pub fn is_alone(&self) -> bool
        ensures alone { result ≡ alone_stage self.now.stage }
    {
        match self.stage {
            Stage::OldAlone => true,
            Stage::OldLeads => false,
            Stage::NewLeads => false,
            Stage::NewAlone => true,
        }
    }

    /// What is wanted at once, before the leader goes on.
    pub fn urgent(&self) -> Urgent
        ensures urgent { result ≡ urgent_of self.now }
    {
        match self.wanted {
            None => Urgent::Nothing,
            Some(wanted) => match wanted.word {
                Word::Discard => Urgent::Discard(wanted.n),
                Word::Finish => Urgent::Finish,
                Word::Halt => Urgent::Halt,
                Word::Update => Urgent::Nothing,
                Word::Promote => Urgent::Nothing,
                Word::Back => Urgent::Nothing,
            },
        }
    }

    /// What a point leads to.
    pub fn at_point(&self) -> AtPoint
        ensures point { result ≡ point_leads self.now }
    {
        match self.wanted {
            None => AtPoint::Passes,
            Some(wanted) => match wanted.word {
                Word::Update => {
                    if self.is_alone() {
                        AtPoint::Forks(wanted.update)
                    } else {
                        AtPoint::Passes
                    }
                }
                Word::Promote => AtPoint::Hands(Why::Promote),
                Word::Back => AtPoint::Hands(Why::Back),
                Word::Discard => AtPoint::Passes,
                Word::Finish => AtPoint::Passes,
                Word::Halt => AtPoint::Passes,
            },
        }
    }

    /// The answer to an order, where it needs no file. None is answered for an update that goes on to its files. Such an answer
    /// has no text of the line, so it can be said.
    #[tactic(auto, using(crate::proofs::EarlyTexts::given_text))]
    pub fn early_reply(&self, order: &Order) -> Option<OrderReply>
        ensures reply { result ≡ early_reply self.now order.now }
        ensures text { IfSome result (λ reply. IsText reply) }
    {
        match order {
            Order::Update { .. } => self.update_refusal(),
            Order::Promote => Some(self.only_in(self.old_leads(), Word::Promote)),
            Order::Discard => Some(self.only_in(self.old_leads(), Word::Discard)),
            Order::Finish => Some(self.only_in(self.new_leads(), Word::Finish)),
            Order::Back => Some(self.only_in(self.new_leads(), Word::Back)),
            Order::Halt => Some(OrderReply::Accepted {
                word: Word::Halt,
                update: 0,
            }),
            Order::Status => Some(OrderReply::Told {
                stage: self.stage,
                update: self.follower,
                last: self.last,
            }),
        }
    }

    fn old_leads(&self) -> bool
        ensures { result ≡ is_old_leads self.now.stage }
    {
        matches!(self.stage, Stage::OldLeads)
    }

    fn new_leads(&self) -> bool
        ensures { result ≡ is_new_leads self.now.stage }
    {
        matches!(self.stage, Stage::NewLeads)
    }

    fn only_in(&self, here: bool, word: Word) -> OrderReply
        ensures { result ≡ only here word self.now.stage }
    {
        if here {
            OrderReply::Accepted { word, update: 0 }
        } else {
            OrderReply::Stage { now: self.stage }
        }
    }

    fn update_refusal(&self) -> Option<OrderReply>
        ensures { result ≡ update_refusal self.now }
    {
        if !self.is_alone() {
            return Some(OrderReply::Stage { now: self.stage });
        }
        if let Some(
            Wanted {
                word: Word::Update,
                update,
                ..
            },
        ) = self.wanted
        {
            return Some(OrderReply::Busy { update });
        }
        if self.fresh < UPDATE_LIMIT {
            None
        } else {
            Some(OrderReply::Many)
        }
    }

    /// The status after an entry.
    pub fn after(&self, entry: &Entry) -> Status
        requires counts { (self.now.number < 2 ^ 63) × (self.now.since < 2 ^ 63) × (self.now.updates < 2 ^ 31) × (self.now.fresh < 2 ^ 31) }
        ensures after { result ≡ status_after self.now entry.now }
    {
        let changed = self.changed(entry);
        Status {
            number: self.number + 1,
            since: self.since + 1,
            weight: self.weighed(entry),
            ..changed
        }
    }

    #[tactic(auto, using(crate::proofs::Weights::weighs_once))]
    fn weighed(&self, entry: &Entry) -> u64
        ensures { result ≡ min (self.now.weight + payload_of entry.now) (2 ^ 64 - 1) }
    {
        self.weight.saturating_add(entry.payload())
    }

    fn changed(&self, entry: &Entry) -> Status
        requires { (self.now.updates < 2 ^ 31) × (self.now.fresh < 2 ^ 31) }
        ensures { result ≡ changed self.now entry.now }
    {
        match entry {
            Entry::Call { .. } => *self,
            Entry::Point => *self,
            Entry::Order { reply, .. } => self.answered(reply),
            Entry::Mark(mark) => self.marked(mark),
        }
    }

    fn answered(&self, reply: &OrderReply) -> Status
        requires { (self.now.updates < 2 ^ 31) × (self.now.fresh < 2 ^ 31) }
        ensures { result ≡ answered self.now reply.now }
    {
        match reply {
            OrderReply::Accepted { word, update } => {
                let wanted = Some(Wanted {
                    word: *word,
                    n: self.number,
                    update: *update,
                });
                match word {
                    Word::Update => Status {
                        wanted,
                        updates: self.updates + 1,
                        fresh: self.fresh + 1,
                        ..*self
                    },
                    _ => Status { wanted, ..*self },
                }
            }
            _ => *self,
        }
    }

    fn marked(&self, mark: &Mark) -> Status
        ensures { result ≡ marked self.now mark.now }
    {
        let clear = Status {
            wanted: None,
            asked: None,
            ..*self
        };
        match mark {
            Mark::Fork { update } => Status {
                stage: Stage::OldLeads,
                follower: *update,
                ..clear
            },
            Mark::NoCopy { .. } => Status {
                last: Last::Memory,
                ..clear
            },
            Mark::Hand { why } => Status {
                asked: Some(Asked {
                    why: *why,
                    n: self.number,
                }),
                ..*self
            },
            Mark::Promote => Status {
                stage: Stage::NewLeads,
                ..clear
            },
            Mark::Over => Status {
                stage: Stage::NewAlone,
                follower: 0,
                ..clear
            },
            Mark::Back => Status {
                stage: Stage::OldAlone,
                follower: 0,
                ..clear
            },
            Mark::Finish => Status {
                stage: Stage::NewAlone,
                follower: 0,
                ..clear
            },
            Mark::Discard { cause } => Status {
                stage: Stage::OldAlone,
                follower: 0,
                last: cause.kind(),
                ..clear
            },
            Mark::Dropped { cause } => Status {
                stage: Stage::NewAlone,
                follower: 0,
                last: cause.kind(),
                ..clear
            },
            Mark::End { how } => Status {
                follower: 0,
                asked: None,
                ended: Some(*how),
                ..*self
            },
        }
    }
}

impl Cause {
    /// The name of this cause in the answer to `status`.
    pub fn kind(&self) -> Last
        ensures kind { result ≡ kind_of self.now }
    {
        match self {
            Cause::Trap { .. } => Last::Trap,
            Cause::Mismatch { .. } => Last::Mismatch,
            Cause::Refused(_) => Last::Refused,
            Cause::Rules { .. } => Last::Rules,
            Cause::Order { .. } => Last::Order,
            Cause::Memory => Last::Memory,
        }
    }
}
