//! The rises of OUT over some pulses.

ghost use Rattle.std.specs.Prelude.{IfSome, ◌≡◌, ◌+◌, ◌<◌, ◌≤◌, ◌^◌, suc, if◌then◌else◌};
ghost use Rattle.clk_units.specs.Events.{first_more};
ghost use Rattle.pit_counter.specs.private.Stretch.{joined_first};

/// The rises of OUT over some CLK pulses.
#[derive(Clone, Copy, Debug, PartialEq, Eq)]
pub struct Rises {
    /// How many there were.
    pub count: u64,
    /// The pulse of the first, pulses being counted from 1.
    pub first: Option<u64>,
}

/// No rises.
pub const NONE: Rises = Rises {
    count: 0,
    first: None,
};

/// The rises of one pulse more, after the first `done`.
pub fn with_pulse(rises: Rises, done: u64, rose: bool) -> Rises
    requires few { rises.count ≤ done }
    requires fits { done + 1 < 2 ^ 64 }
    ensures count { result.count ≡ (if rose then suc rises.count else rises.count) }
    ensures first { result.first ≡ first_more rises.first done rose }
{
    if rose {
        Rises {
            count: rises.count + 1,
            first: Some(rises.first.unwrap_or(done + 1)),
        }
    } else {
        rises
    }
}

/// The rises of two stretches, the second after the `done` pulses of the first.
pub fn joined(rises: Rises, done: u64, later: Rises) -> Rises
    requires fits { rises.count + later.count < 2 ^ 64 }
    requires first_fits { IfSome later.first (λ j. done + j < 2 ^ 64) }
    ensures count { result.count ≡ rises.count + later.count }
    ensures first { result.first ≡ joined_first rises.first done later.first }
{
    let first = match (rises.first, later.first) {
        (Some(k), _) => Some(k),
        (None, Some(j)) => Some(done + j),
        (None, None) => None,
    };
    Rises {
        count: rises.count + later.count,
        first,
    }
}
