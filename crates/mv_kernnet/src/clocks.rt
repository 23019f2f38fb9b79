//! The two clocks of WASI preview 1 (`clockid`), in nanoseconds.
ghost use Rattle.std.specs.Prelude.{IfOk, IsTrue};
ghost use Rattle.mv_calls.specs.Suits.{suits_of};
ghost use Rattle.mv_calls.specs.declared.calls.Call.TheVariants.{Clock as clock_call};

use crate::errno::INVAL;
use mv_calls::Reply;
use std::io;
use std::rt::Clock;
use std::time::Duration;

/// The number of the real time.
const REAL: u32 = 0;

/// The number of the monotonic clock.
const MONOTONIC: u32 = 1;

/// Bit 0 of a subscription's flags: its timeout is a time of the clock, and no span.
const ABSOLUTE: u16 = 1;

/// Both clocks at one moment.
#[derive(Clone, Copy)]
pub(crate) struct Moment {
    real: u64,
    monotonic: u64,
}

impl Moment {
    /// Now. An error is that of a clock.
    pub(crate) fn now<R: Clock>(system: &R) -> io::Result<Moment> {
        Ok(Moment {
            real: nanoseconds(system.since_1970()?)?,
            monotonic: nanoseconds(system.monotonic()?)?,
        })
    }

    /// The clock of this number, if there is one.
    fn of(&self, id: u32) -> Option<u64> {
        match id {
            REAL => Some(self.real),
            MONOTONIC => Some(self.monotonic),
            _ => None,
        }
    }

    /// Whether the timeout of a clock has come now, of a subscription that was made at `began`. None
    /// where there is no clock of this number.
    pub(crate) fn has_come(
        &self,
        began: &Moment,
        id: u32,
        timeout: u64,
        flags: u16,
    ) -> Option<bool> {
        let now = self.of(id)?;
        if flags & ABSOLUTE == ABSOLUTE {
            return Some(timeout <= now);
        }
        Some(timeout <= now.saturating_sub(began.of(id)?))
    }
}

/// The time of one clock. An error is that of the clock.
pub(crate) fn clock_reply<R: Clock>(system: &R, id: u32) -> io::Result<Reply>
    ensures { IfOk result (λ reply. IsTrue (suits_of (clock_call id) reply)) }
{
    match id {
        REAL => Ok(Reply::Time(nanoseconds(system.since_1970()?)?)),
        MONOTONIC => Ok(Reply::Time(nanoseconds(system.monotonic()?)?)),
        _ => Ok(Reply::Errno(INVAL)),
    }
}

/// The duration in nanoseconds. The one error is that they are too many for the type.
fn nanoseconds(time: Duration) -> io::Result<u64> {
    match u64::try_from(time.as_nanos()) {
        Ok(nanoseconds) => Ok(nanoseconds),
        Err(_) => Err(io::Error::from(io::ErrorKind::InvalidData)),
    }
}
