//! Files that are judged, and no guest runs.
ghost use Rattle.std.specs.Prelude.{◌≡◌, ◌≤◌};
ghost use Rattle.mv_commands.specs.Loading.{IsJudged, IsJudgedOf};
ghost use Rattle.mv_commands.specs.Named.{SaysOfModule, SaysOfRules};

use crate::ending::Finding;
use crate::loading::FILE_LIMIT;
use mv_calls::{Bytes, Or};
use mv_outside::{Files, Found};
use mv_reader::read_module;
use mv_rulecheck::keep_reads;
use mv_rules::parse_rules;
use mv_syntax::BornFault;
use mv_validator::validate;
use std::alloc::Global;

/// How many bytes a rules file has at most.
const RULES_LIMIT: usize = 65_536;

/// What a file is found to be.
#[derive(Clone, Copy, PartialEq, Eq, Debug)]
pub enum Judged {
    /// It is missing, or reading it failed.
    NoFile,
    /// There was no memory for it.
    NoMemory,
    /// It is this.
    Found(Finding),
}

/// Reads and judges the module of this path.
pub fn module_at<F: Files>(alloc: Global, path: &Bytes, files: &mut F) -> Judged
    ensures judged { IsJudged SaysOfModule (F.content files.old) path.now (F.faults files.old) (F.faults files.new) result }
    ensures same { F.content files.new ≡ F.content files.old }
    ensures later { F.faults files.old ≤ F.faults files.new }
{
    match files.read(alloc, path.slice(), FILE_LIMIT) {
        Found::Bytes(text) => module_in(alloc, text.slice()),
        Found::Missing | Found::Failed => Judged::NoFile,
        Found::Memory => Judged::NoMemory,
    }
}

/// What a text is as a module's file.
fn module_in(alloc: Global, text: &[u8]) -> Judged
    ensures { IsJudgedOf SaysOfModule text.now result }
{
    match read_module(alloc, text) {
        Ok(read) => match validate(alloc, read) {
            Ok(_) => Judged::Found(Finding::Valid),
            Err(Or::Fault(fault)) => Judged::Found(Finding::Refused(BornFault::Valid(fault))),
            Err(Or::OutOfMemory) => Judged::NoMemory,
        },
        Err(Or::Fault(fault)) => Judged::Found(Finding::Refused(BornFault::Read(fault))),
        Err(Or::OutOfMemory) => Judged::NoMemory,
    }
}

/// Reads and judges the rules file of this path.
pub fn rules_at<F: Files>(alloc: Global, path: &Bytes, files: &mut F) -> Judged
    ensures judged { IsJudged SaysOfRules (F.content files.old) path.now (F.faults files.old) (F.faults files.new) result }
    ensures same { F.content files.new ≡ F.content files.old }
    ensures later { F.faults files.old ≤ F.faults files.new }
{
    match files.read(alloc, path.slice(), RULES_LIMIT) {
        Found::Bytes(text) => rules_in_text(alloc, text.slice()),
        Found::Missing | Found::Failed => Judged::NoFile,
        Found::Memory => Judged::NoMemory,
    }
}

/// What a text is as a rules file.
fn rules_in_text(alloc: Global, text: &[u8]) -> Judged
    ensures { IsJudgedOf SaysOfRules text.now result }
{
    match parse_rules(alloc, text) {
        Ok(rules) => {
            let count = rules.count();
            match keep_reads(rules) {
                Ok(_) => Judged::Found(Finding::Rules(count)),
                Err(fault) => Judged::Found(Finding::BadRules(fault)),
            }
        }
        Err(Or::Fault(fault)) => Judged::Found(Finding::BadRules(fault)),
        Err(Or::OutOfMemory) => Judged::NoMemory,
    }
}
