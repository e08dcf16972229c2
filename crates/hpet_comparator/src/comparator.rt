//! The comparator register.

ghost use Rattle.std.specs.Prelude.{◌≡◌, ◌*◌, ◌^◌, ◌<◌, IsTrue};
ghost use Rattle.hpet_comparator.specs.Part.{is_register_width};
ghost use Rattle.hpet_comparator.specs.Comparator.{comparator_written};

use crate::part::write_part;
use crate::parts::{TimerParts, VAL_SET, within};

/// The comparator after a write to its register.
#[tactic(auto, unfolding(crate::specs::Comparator::comparator_written))]
fn next_comparator(parts: &TimerParts, width: u8, high: bool, v: u64) -> u64
    requires width { IsTrue (is_register_width width) }
    requires fits { v < 2 ^ (8 * width) }
    ensures { result ≡ (comparator_written width high v parts.now).comparator }
{
    if parts.is_periodic() && !parts.takes_comparator() {
        parts.comparator
    } else {
        within(parts, write_part(parts.comparator, width, high, v))
    }
}

/// The timer after a write to its comparator register.
#[tactic(auto, unfolding(crate::specs::Comparator::comparator_written))]
pub(crate) fn comparator_written(parts: TimerParts, width: u8, high: bool, v: u64) -> TimerParts
    requires width { IsTrue (is_register_width width) }
    requires fits { v < 2 ^ (8 * width) }
    ensures { result ≡ comparator_written width high v parts }
{
    TimerParts {
        comparator: next_comparator(&parts, width, high, v),
        period: within(&parts, write_part(parts.period, width, high, v)),
        config: parts.config & !(1 << VAL_SET),
    }
}
