//! Updates and the alarm at once: what a stretch of seconds brings.
ghost use Rattle.std.specs.Prelude.{◌≡◌};
ghost use Rattle.clk_units.specs.Events.{IsFirst};
ghost use Rattle.rtc_calendar.specs.Updates.{updated_times};
ghost use Rattle.rtc_calendar.specs.Alarms.{matches_in};

use crate::alarms::match_after;
use crate::stretch::later;
use crate::updates::{bytes_of, moment_of};
use crate::{Alarm, Form, TimeBytes};

/// What updates bring.
#[derive(Clone, Copy, Debug, PartialEq, Eq)]
pub struct Elapsed {
    /// The bytes after them.
    pub bytes: TimeBytes,
    /// The first of them that the alarm matches, counted from 1.
    pub matched: Option<u64>,
}

/// The bytes after `n` updates, as `after` gives them, and the first of these updates that the alarm matches, as
/// `first_match` does. The bytes are read once.
pub fn let_pass(bytes: TimeBytes, form: Form, alarm: Alarm, n: u64) -> Elapsed
    ensures bytes { result.bytes ≡ updated_times form n bytes }
    ensures matched { IsFirst (matches_in form alarm bytes) n result.matched }
{
    if n == 0 {
        return Elapsed {
            bytes,
            matched: None,
        };
    }
    let moment = moment_of(bytes, form);
    Elapsed {
        bytes: bytes_of(later(moment, n), form),
        matched: match_after(moment, form, alarm, n),
    }
}
