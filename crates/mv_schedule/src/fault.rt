//! Why a schedule is refused.

/// Why a schedule is refused (docs/FORMATS.md, "Schedules").
#[derive(Clone, Copy, PartialEq, Eq, Debug)]
pub enum ScheduleFault {
    /// The byte at this place, from 0, is no letter of a beat, no space and no line feed.
    Letter { place: u64 },
    /// The text has more than 16 MiB.
    Limit,
}
