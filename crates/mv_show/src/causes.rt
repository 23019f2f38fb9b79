//! Why a follower is given up, as a JSON value.
ghost use Rattle.std.specs.Prelude.{◌≡◌, codes, IfOk};
ghost use Rattle.serde_json.specs.Data.{object, no_members};
ghost use Rattle.serde_json.specs.View.{view};
ghost use Rattle.mv_show.specs.Calls.{text_at, number_at};
ghost use Rattle.mv_show.specs.Causes.{start_data, birth_data, event_data, cause_data};

use crate::calls::call_value;
use crate::names::{read_kind_name, rule_kind_name, side_name, trap_name, valid_kind_name};
use mv_calls::Call;
use mv_history::Cause;
use mv_syntax::{BornFault, StartFault};
use mv_version::Event;
use serde_json::{Value, json};
use std::alloc::{AllocError, Global};

/// Why a module can't be started, because of an import.
fn import_value(alloc: Global, kind: &str, import: u32) -> Result<Value, AllocError>
    ensures { IfOk result (λ v. view v ≡ object (text_at (codes "birth") (codes "start") (number_at (codes "import") import (text_at (codes "kind") kind.now no_members)))) }
{
    json!(in alloc; {"birth": "start", "kind": kind, "import": import})
}

/// Why a module can't be started, because of a segment.
fn segment_value(alloc: Global, kind: &str, segment: u32) -> Result<Value, AllocError>
    ensures { IfOk result (λ v. view v ≡ object (text_at (codes "birth") (codes "start") (text_at (codes "kind") kind.now (number_at (codes "segment") segment no_members)))) }
{
    json!(in alloc; {"birth": "start", "kind": kind, "segment": segment})
}

/// Why a module can't be started.
fn start_value(alloc: Global, fault: StartFault) -> Result<Value, AllocError>
    ensures { IfOk result (λ v. view v ≡ start_data fault) }
{
    match fault {
        StartFault::NoEntry => json!(in alloc; {"birth": "start", "kind": "NoEntry"}),
        StartFault::UnknownImport { import } => import_value(alloc, "UnknownImport", import),
        StartFault::ImportType { import } => import_value(alloc, "ImportType", import),
        StartFault::ElementBounds { segment } => segment_value(alloc, "ElementBounds", segment),
        StartFault::DataBounds { segment } => segment_value(alloc, "DataBounds", segment),
        StartFault::Trap(trap) => {
            json!(in alloc; {"birth": "start", "kind": "Trap", "trap": trap_name(trap)})
        }
    }
}

/// Why no guest came to be.
fn birth_value(alloc: Global, fault: BornFault) -> Result<Value, AllocError>
    ensures { IfOk result (λ v. view v ≡ birth_data fault) }
{
    match fault {
        BornFault::Read(fault) => json!(in alloc; {
            "birth": "read",
            "kind": read_kind_name(fault.kind),
            "place": fault.place
        }),
        BornFault::Valid(fault) => json!(in alloc; {
            "birth": "valid",
            "kind": valid_kind_name(fault.kind),
            "part": fault.part,
            "item": fault.item,
            "at": fault.at
        }),
        BornFault::Start(fault) => start_value(alloc, fault),
        BornFault::NoTransform => json!(in alloc; {"birth": "no transform"}),
        BornFault::NoResume => json!(in alloc; {"birth": "no resume"}),
        BornFault::Transform(trap) => {
            json!(in alloc; {"birth": "transform", "trap": trap_name(trap)})
        }
        BornFault::Code(code) => json!(in alloc; {"birth": "code", "code": code}),
    }
}

/// What a guest does next.
fn event_value(alloc: Global, event: &Event) -> Result<Value, AllocError>
    ensures { IfOk result (λ v. view v ≡ event_data event.now) }
{
    match event {
        Event::Calls(call) => {
            let call = call_value(alloc, call)?;
            json!(in alloc; {"event": "calls", "call": call})
        }
        Event::Point => json!(in alloc; {"event": "point"}),
        Event::Ends(code) => json!(in alloc; {"event": "ends", "code": *code}),
        Event::Traps(trap) => json!(in alloc; {"event": "traps", "trap": trap_name(*trap)}),
    }
}

/// That the follower does something else than the item wants.
fn mismatch_value(alloc: Global, item: u64, want: &Call, got: &Event) -> Result<Value, AllocError>
    ensures { IfOk result (λ v. view v ≡ cause_data (Cause.Mismatch item want.now got.now)) }
{
    let want = call_value(alloc, want)?;
    let got = event_value(alloc, got)?;
    json!(in alloc; {"cause": "mismatch", "item": item, "want": want, "got": got})
}

/// Why a follower is given up.
pub(crate) fn cause_value(alloc: Global, cause: &Cause) -> Result<Value, AllocError>
    ensures { IfOk result (λ v. view v ≡ cause_data cause.now) }
{
    match cause {
        Cause::Trap { k, trap } => {
            json!(in alloc; {"cause": "trap", "item": *k, "trap": trap_name(*trap)})
        }
        Cause::Mismatch { k, want, got } => mismatch_value(alloc, *k, want, got),
        Cause::Refused(fault) => {
            let birth = birth_value(alloc, *fault)?;
            json!(in alloc; {"cause": "refused", "birth": birth})
        }
        Cause::Rules { side, fault } => json!(in alloc; {
            "cause": "rules",
            "side": side_name(*side),
            "line": fault.line,
            "kind": rule_kind_name(fault.kind)
        }),
        Cause::Order { n } => json!(in alloc; {"cause": "order", "entry": *n}),
        Cause::Memory => json!(in alloc; {"cause": "memory"}),
    }
}
