//! A log's entries, one JSON object a line.
ghost use Rattle.std.specs.Prelude.{◌≡◌, ◌++◌, IfOk, OnOk};
ghost use Rattle.mv_show.specs.Lines.{entry_line, log_text};

use crate::entries::entry_value;
use mv_calls::OutOfMemory;
use mv_history::Entry;
use std::alloc::Global;

/// Adds the line of the entry of this number.
fn add_line(
    alloc: Global,
    lines: &mut Vec<u8>,
    number: usize,
    entry: &Entry,
) -> Result<(), OutOfMemory>
    ensures { OnOk result (lines.new.items ≡ lines.old.items ++ entry_line number entry.now) }
{
    let value = entry_value(alloc, number, entry)?;
    let line = value.to_vec(alloc)?;
    lines.extend_from_slice(&line)?;
    lines.push(b'\n')?;
    Ok(())
}

/// The lines of a log's entries, one JSON object a line, numbered from 0. The one error is want of memory.
pub fn log_lines(alloc: Global, entries: &[Entry]) -> Result<Vec<u8>, OutOfMemory>
    ensures { IfOk result (λ text. text.items ≡ log_text entries.now) }
{
    let mut lines = Vec::new(alloc);
    for (number, entry) in entries.iter().enumerate() {
        add_line(alloc, &mut lines, number, entry)?;
    }
    Ok(lines)
}
