//! The files of updates, named in threes: module, forward rules, reverse rules.
ghost use Rattle.std.specs.Prelude.{◌≡◌, ◌≤◌, [], ◌∷◌, IfOk, IfErr};
ghost use Rattle.mv_history.specs.Rules.{no_rules_text};
ghost use Rattle.mv_core.specs.Found.{AreRead, HasBytes, HasRules};
ghost use Rattle.mv_inspect.specs.Audits.{AreInThrees, AreNamed, rules_file, three_files, update_files};
ghost use Rattle.mv_inspect.specs.Steps.{IsNoFile, IsUnread};

use mv_calls::Bytes;
use mv_history::{Update, Updates};
use mv_outside::{Files, Found};
use std::alloc::Global;

/// The most bytes of a module. One more is read of a longer file, which no guest starts of.
pub(crate) const MODULE_CAP: usize = 16_777_216;

/// The most bytes of a rules file, likewise.
const RULES_CAP: usize = 65_536;

/// Why the files of updates aren't all read.
#[derive(Drop)]
pub(crate) enum Unread {
    /// The file of this path is missing, or reading it failed.
    NoFile(Bytes),
    /// Memory was wanted.
    NoMemory,
}

/// Says that the file of this path isn't read.
pub(crate) fn no_file(alloc: Global, path: &Bytes) -> Unread
    ensures { IsNoFile path.now result }
{
    match path.copy(alloc) {
        Ok(path) => Unread::NoFile(path),
        Err(_) => Unread::NoMemory,
    }
}

/// Reads a file, one byte more than the cap at most.
fn file_at<F: Files>(
    alloc: Global,
    path: &Bytes,
    cap: usize,
    files: &mut F,
) -> Result<Bytes, Unread>
    ensures read { IfOk result (HasBytes (F.content files.old) cap path.now) }
    ensures unread { IfErr result (IsUnread (F.content files.old) (path.now ∷ []) (F.faults files.old) (F.faults files.new)) }
    ensures same { F.content files.new ≡ F.content files.old }
    ensures later { F.faults files.old ≤ F.faults files.new }
{
    match files.read(alloc, path.slice(), cap) {
        Found::Bytes(bytes) => Ok(bytes),
        Found::Missing | Found::Failed => Err(no_file(alloc, path)),
        Found::Memory => Err(Unread::NoMemory),
    }
}

/// The file of no rules.
fn no_rules(alloc: Global) -> Result<Bytes, Unread>
    ensures text { IfOk result (λ bytes. bytes ≡ no_rules_text) }
    ensures memory { IfErr result (λ unread. unread ≡ Unread.NoMemory) }
{
    match Bytes::from_slice(alloc, b"mvrules 1\n") {
        Ok(bytes) => Ok(bytes),
        Err(_) => Err(Unread::NoMemory),
    }
}

/// Reads the rules that a word names. The word `none` names no file, and stands for no rules.
fn rules_at<F: Files>(alloc: Global, name: &Bytes, files: &mut F) -> Result<Bytes, Unread>
    ensures read { IfOk result (HasRules (F.content files.old) name.now) }
    ensures unread { IfErr result (IsUnread (F.content files.old) (rules_file name.now) (F.faults files.old) (F.faults files.new)) }
    ensures same { F.content files.new ≡ F.content files.old }
    ensures later { F.faults files.old ≤ F.faults files.new }
{
    if name.slice() == b"none".as_slice() {
        return no_rules(alloc);
    }
    file_at(alloc, name, RULES_CAP, files)
}

/// Reads the files of one update.
fn update_at<F: Files>(
    alloc: Global,
    module: &Bytes,
    forward: &Bytes,
    reverse: &Bytes,
    files: &mut F,
) -> Result<Update, Unread>
    ensures read { IfOk result (AreRead (F.content files.old) «module».now forward.now reverse.now) }
    ensures unread { IfErr result (IsUnread (F.content files.old) (three_files «module».now forward.now reverse.now) (F.faults files.old) (F.faults files.new)) }
    ensures same { F.content files.new ≡ F.content files.old }
    ensures later { F.faults files.old ≤ F.faults files.new }
{
    let module = file_at(alloc, module, MODULE_CAP, files)?;
    let forward = rules_at(alloc, forward, files)?;
    let reverse = rules_at(alloc, reverse, files)?;
    Ok(Update {
        module,
        forward,
        reverse,
    })
}

/// Reads the files of these updates.
pub(crate) fn updates_at<F: Files>(
    alloc: Global,
    names: &[Bytes],
    files: &mut F,
) -> Result<Updates, Unread>
    requires { AreInThrees names.now }
    ensures read { IfOk result (λ updates. AreNamed (F.content files.old) names.now updates.list) }
    ensures unread { IfErr result (IsUnread (F.content files.old) (update_files names.now) (F.faults files.old) (F.faults files.new)) }
    ensures same { F.content files.new ≡ F.content files.old }
    ensures later { F.faults files.old ≤ F.faults files.new }
{
    let mut updates = Vec::new(alloc);
    for number in 0..names.len() / 3 {
        let place = 3 * number;
        let update = update_at(
            alloc,
            &names[place],
            &names[place + 1],
            &names[place + 2],
            files,
        )?;
        let Ok(_) = updates.push(update) else {
            return Err(Unread::NoMemory);
        };
    }
    Ok(Updates::from_vec(updates))
}
