//! A tick line over a stretch of nanoseconds in which nobody acknowledges it.

ghost use Rattle.std.specs.Prelude.{◌≡◌, ℕ, ◌+◌, ◌^◌, ◌<◌, ◌≤◌};
ghost use Rattle.irq_edges.specs.Rises.{is_up_at};
ghost use Rattle.tick_policy.specs.Stretch.{caught_up_where, is_caught, line_end, up_from};
ghost use Rattle.tick_policy.specs.Stretch.{IsStretch};
ghost use Rattle.tick_policy.specs.Stretch.{line_after, line_after_points};

use crate::TickLine;

/// Takes the line through the nanoseconds after `from` and up to `to`. `point` is the first
/// catch-up point after `from`, `ticks` is how many ticks are due in the stretch, and `first` the
/// nanosecond of the first of them. Answers the nanosecond from which on the line is up: `from`
/// where it was up before, and none where it stays down.
///
/// Nobody acknowledges the line in the stretch. So it rises once at most, and later catch-up points
/// find it up or with no tick that waits. Whether a tick comes before or after the catch-up point
/// of its nanosecond makes no difference after that nanosecond.
pub fn run_line(
    line: &mut TickLine,
    from: u64,
    to: u64,
    point: u64,
    ticks: u64,
    first: Option<u64>,
) -> Option<u64>
    requires { line.old.counts.due + ticks < 2 ^ 63 }
    ensures state { line.new ≡ line_end point to first ticks line.old }
    ensures up { result ≡ up_from from point to first line.old }
    ensures due { line.new.counts.due ≡ line.old.counts.due + ticks }
    ensures policy { line.new.policy ≡ line.old.policy }

    // the same by single nanoseconds, a tick before the catch-up point: the end, and each level
    ensures each_nanosecond { (source : ℕ → ℕ) (slew n : ℕ) → to ≡ from + n →
        IsStretch source slew from n point ticks first →
        line.new ≡ line_after source slew from n line.old }
    ensures each_level { (source : ℕ → ℕ) (slew n : ℕ) → to ≡ from + n →
        IsStretch source slew from n point ticks first → (j : ℕ) → j ≤ n →
        (line_after source slew from j line.old).up ≡ is_up_at (from + j) result }

    // and a tick after it
    ensures each_nanosecond_points { (source : ℕ → ℕ) (slew n : ℕ) → to ≡ from + n →
        IsStretch source slew from n point ticks first →
        line.new ≡ line_after_points source slew from n line.old }
    ensures each_level_points { (source : ℕ → ℕ) (slew n : ℕ) → to ≡ from + n →
        IsStretch source slew from n point ticks first → (j : ℕ) → j ≤ n →
        (line_after_points source slew from j line.old).up ≡ is_up_at (from + j) result }
{
    let since = up_from(line, from, to, point, first);
    catch_up_first(line, to, point, first);
    line.due(ticks);
    since
}

/// Takes the line through the first catch-up point, where that comes by `to` and before the first tick.
#[inline(always)]
fn catch_up_first(line: &mut TickLine, to: u64, point: u64, first: Option<u64>)
    ensures { line.new ≡ caught_up_where (is_caught point to first) line.old }
{
    if is_caught(to, point, first) {
        line.catch_up();
    }
}

/// From when on the line is up in such a stretch, whose first tick comes at `first`: what `run_line` answers. The line
/// stays as it is.
#[inline(always)]
pub fn up_from(line: &TickLine, from: u64, to: u64, point: u64, first: Option<u64>) -> Option<u64>
    ensures { result ≡ up_from from point to first line.now }
{
    if line.is_up() {
        Some(from)
    } else if line.is_waiting() && is_caught(to, point, first) {
        Some(point)
    } else {
        first
    }
}

/// Whether the first catch-up point comes by `to` and before the first tick.
#[inline(always)]
fn is_caught(to: u64, point: u64, first: Option<u64>) -> bool
    ensures { result ≡ is_caught point to first }
{
    match first {
        None => point <= to,
        Some(at) => point <= to && point < at,
    }
}
