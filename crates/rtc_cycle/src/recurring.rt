//! Events that come at even distances.

ghost use Rattle.std.specs.Prelude.{◌≡◌, ◌<◌, ◌≤◌};
ghost use Rattle.rtc_cycle.specs.private.Stretch.{recurs, first_recurs};

/// The events of a stretch of steps.
#[derive(Clone, Copy, Debug, PartialEq, Eq)]
pub(crate) struct Recurring {
    /// How many there are.
    pub count: u64,
    /// The step of the first, steps being counted from 1.
    pub first: Option<u64>,
}

impl Recurring {
    /// No event.
    pub(crate) const NONE: Recurring = Recurring {
        count: 0,
        first: None,
    };

    /// The events of `n` steps, of which the first comes at step `next` and each other `period` steps after
    /// the one before.
    pub(crate) fn of(n: u64, next: u64, period: u64) -> Recurring
        requires later { 0 < next }
        requires apart { 0 < period }
        ensures count { result.count ≡ recurs next period n }
        ensures few { result.count ≤ n }
        ensures first { result.first ≡ first_recurs next n }
    {
        if n < next {
            Recurring::NONE
        } else {
            Recurring {
                count: (n - next) / period + 1,
                first: Some(next),
            }
        }
    }
}
