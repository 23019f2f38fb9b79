//! What came of a command line.

use mv_calls::Bytes;
use mv_history::{Entries, How};
use mv_load::Figures;
use mv_record::RecordFault;
use mv_rules::RuleFault;
use mv_schedule::ScheduleFault;
use mv_syntax::BornFault;
use mv_text::TextFault;

/// What a named file is found to be, where no guest runs for it.
#[derive(Clone, Copy, PartialEq, Eq, Debug)]
pub enum Finding {
    /// It isn't a module, or not a valid one, or no guest starts of it.
    Refused(BornFault),
    /// It is a valid module.
    Valid,
    /// It isn't a rules file whose rules keep what is read.
    BadRules(RuleFault),
    /// A rules file with this number of rules.
    Rules(usize),
    /// It isn't a schedule.
    BadSchedule(ScheduleFault),
    /// It isn't the file of a log.
    BadLog(RecordFault),
    /// It isn't an assembler text.
    BadText(TextFault),
}

/// What a load came to.
#[derive(Clone, Copy, PartialEq, Eq, Debug)]
pub enum LoadEnding {
    /// The log of its rehearsal is legal and ended so, and these are its figures.
    Ended { how: How, figures: Figures },
    /// No guest starts of the load's own module.
    Refused(BornFault),
}

/// What came of a command line. One row of the table of statuses each (docs/GUIDE.md, "Statuses").
#[derive(Debug, Drop)]
pub enum Ending {
    /// The words are not those of a command.
    BadWords,
    /// There was no memory before a guest started.
    NoMemory,
    /// The program said what it is, or how it is called.
    Told,
    /// The file of this path is missing, or reading it failed.
    NoFile { path: Bytes },
    /// The file of this path was judged.
    Found { path: Bytes, finding: Finding },
    /// The guest ran, and its log ended so. Where the words name a file for the log, it is there.
    Ran(How),
    /// The guest ran, its log ended so, and the log couldn't be written to the file of this path.
    LogFailed { path: Bytes, how: How },
    /// The guest ran, its log ended so, and there was no memory for the log's file.
    LogNotMade(How),
    /// The log is legal; or its first entry that may not come has this number, from 0.
    Audited { illegal: Option<u64> },
    /// A text was assembled, and its module's file has so many bytes.
    Assembled { bytes: u64 },
    /// A text was assembled, and the module couldn't be written to the file of this path.
    NotWritten { path: Bytes },
    /// The entries of a log, to be shown.
    Shown { entries: Entries },
    /// A load was rehearsed.
    Loaded(LoadEnding),
}
