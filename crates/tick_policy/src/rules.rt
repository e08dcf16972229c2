//! What a tick, an acknowledgement and a catch-up point do to the fields.

ghost use Rattle.std.specs.Prelude.{◌≡◌, ◌+◌, ◌^◌, ◌<◌, ◌≤◌, true};
ghost use Rattle.tick_policy.specs.Line.{ticked_times, with_one_shown, goes_again, acked};
ghost use Rattle.tick_policy.specs.Line.{ack_answer, is_waiting, caught_up};
ghost use Rattle.tick_policy.specs.Parts.{IsTickLine};
ghost use Rattle.tick_policy.specs.private.AtOnce.{shown_at_once, with_missed};

use crate::{Acked, Counts, Policy, TickParts};

/// Whether an acknowledgement brings the line up again.
fn goes_again(line: TickParts) -> bool
    ensures { result ≡ goes_again line }
{
    match line.policy {
        Policy::Delay => line.up && line.counts.queue > 0,
        Policy::Discard | Policy::Slew => false,
    }
}

/// Whether a catch-up point brings the line up.
fn is_waiting(line: TickParts) -> bool
    ensures { result ≡ is_waiting line }
{
    match line.policy {
        Policy::Slew => !line.up && line.counts.queue > 0,
        Policy::Discard | Policy::Delay => false,
    }
}

/// The counts with one tick shown that waited, where `shown` says so.
fn with_one_shown(counts: Counts, shown: bool) -> Counts
    requires waits { shown ≡ true → 0 < counts.queue }
    requires fits { counts.rises + counts.queue < 2 ^ 64 }
    ensures { result ≡ with_one_shown shown counts }
{
    if shown {
        Counts {
            rises: counts.rises + 1,
            queue: counts.queue - 1,
            ..counts
        }
    } else {
        counts
    }
}

/// The line after an acknowledgement.
pub(crate) fn acknowledged(line: TickParts) -> TickParts
    requires { IsTickLine line }
    ensures state { result ≡ acked line }
    ensures valid { IsTickLine result }
{
    let up = goes_again(line);
    TickParts {
        policy: line.policy,
        up,
        counts: with_one_shown(line.counts, up),
    }
}

/// What an acknowledgement does.
pub(crate) fn answer_of(line: TickParts) -> Acked
    ensures { result ≡ ack_answer line }
{
    if !line.up {
        Acked::NotUp
    } else if goes_again(line) {
        Acked::DownUp
    } else {
        Acked::Down
    }
}

/// The line after a catch-up point.
pub(crate) fn brought_up(line: TickParts) -> TickParts
    requires { IsTickLine line }
    ensures state { result ≡ caught_up line }
    ensures valid { IsTickLine result }
{
    let rises = is_waiting(line);
    TickParts {
        policy: line.policy,
        up: line.up || rises,
        counts: with_one_shown(line.counts, rises),
    }
}

/// How many of `n` ticks bring the line up: the first of them, where it is down.
fn shown_at_once(up: bool, n: u64) -> u64
    ensures value { result ≡ shown_at_once up n }
    ensures few { result ≤ n }
{
    if up { 0 } else { n.min(1) }
}

/// The counts with `n` ticks more that found the line up.
fn with_missed(counts: Counts, policy: Policy, n: u64) -> Counts
    requires queue_fits { counts.queue + n < 2 ^ 64 }
    requires lost_fits { counts.lost + n < 2 ^ 64 }
    ensures { result ≡ with_missed policy n counts }
{
    match policy {
        Policy::Discard => Counts {
            lost: counts.lost + n,
            ..counts
        },
        Policy::Delay | Policy::Slew => Counts {
            queue: counts.queue + n,
            ..counts
        },
    }
}

/// The line after `n` ticks: the first of them brings a line up that is down, the others find it
/// up.
pub(crate) fn with_ticks(line: TickParts, n: u64) -> TickParts
    requires room { line.counts.due + n < 2 ^ 63 }
    requires valid { IsTickLine line }
    ensures state { result ≡ ticked_times n line }
    ensures valid { IsTickLine result }
{
    let shown = shown_at_once(line.up, n);
    let counts = Counts {
        due: line.counts.due + n,
        rises: line.counts.rises + shown,
        ..line.counts
    };
    TickParts {
        policy: line.policy,
        up: line.up || n > 0,
        counts: with_missed(counts, line.policy, n - shown),
    }
}
