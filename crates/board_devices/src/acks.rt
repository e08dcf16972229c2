//! What an acknowledgement does to the tick lines, and to the level of its line.
ghost use Rattle.std.specs.Prelude.{◌≡◌, ◌≢◌, ℕ, ◌+◌, ◌<◌, ◌&&◌, ◌||◌, length, slice_index_or};
ghost use Rattle.tick_policy.specs.Line.{acked};
ghost use Rattle.hpet_registers.specs.Parts.{is_legacy};
ghost use Rattle.board_devices.specs.Places.{no_line, each};
ghost use Rattle.board_devices.specs.Act.{drives_now, acks, acked_where, down_where};
ghost use Rattle.board_devices.specs.private.Acks.{
  is_io_line,
  shows,
  timer_acks,
  timer_levels,
  shown_by,
  level_by,
};

use hpet_registers::Hpet;
use tick_policy::TickLine;

/// The level of a line that is acknowledged.
#[derive(Clone, Copy)]
pub(crate) struct Levels {
    /// Before.
    pub(crate) before: bool,
    /// Between the two parts of the access, where each acknowledged tick line is down.
    pub(crate) between: bool,
    /// After, where a tick that waited may have put it up again.
    pub(crate) after: bool,
}

impl Levels {
    /// A line that is down and stays so.
    const DOWN: Levels = Levels {
        before: false,
        between: false,
        after: false,
    };
}

/// The levels of a line that two sources drive.
fn joined(a: Levels, b: Levels) -> Levels
    ensures before { result.before ≡ (a.before || b.before) }
    ensures between { result.between ≡ (a.between || b.between) }
    ensures after { result.after ≡ (a.after || b.after) }
{
    Levels {
        before: a.before || b.before,
        between: a.between || b.between,
        after: a.after || b.after,
    }
}

/// Whether a line is one of those to which timers are routed.
fn is_io_line(line: u8) -> bool
    ensures { result ≡ is_io_line line }
{
    line == 20 || line == 21 || line == 22 || line == 23
}

/// Whether timer `k` drives the line now.
fn drives_now(line: u8, k: u8, h: &Hpet) -> bool
    requires { k < 8 }
    ensures { result ≡ drives_now line k h.now }
{
    if h.legacy() && k < 2 {
        line == if k == 0 { 0 } else { 8 }
    } else {
        h.timer(k).route() == line
    }
}

/// Whether the level of the line shows timer `k`.
fn shows(line: u8, k: u8, h: &Hpet) -> bool
    requires { k < 8 }
    ensures { result ≡ shows (is_legacy h.now) line k h.now }
{
    if h.legacy() && k < 2 {
        line == if k == 0 { 0 } else { 8 }
    } else {
        is_io_line(line) && h.timer(k).route() == line
    }
}

/// Acknowledges the line at place `k`, where it is up. Answers whether it is up again.
fn ack_at(ticks: &mut [TickLine; 10], k: usize) -> bool
    requires { k < 10 }
    ensures places { length ticks.new ≡ 10 }
    ensures here { slice_index_or ticks.new k no_line ≡ acked (slice_index_or ticks.old k no_line) }
    ensures others { (j : ℕ) → j ≢ k
        → slice_index_or ticks.new j no_line ≡ slice_index_or ticks.old j no_line }
    ensures up { result ≡ (acked (slice_index_or ticks.old k no_line)).up }
{
    if !ticks[k].is_up() {
        return false;
    }
    let mut line = ticks[k];
    line.ack();
    ticks[k] = line;
    line.is_up()
}

/// Acknowledges the tick line of timer `k`, where the timer is of edge type, drives the line and
/// sends no messages. Answers what the timer shows of it.
fn ack_timer(ticks: &mut [TickLine; 10], h: &Hpet, k: u8, line: u8) -> Levels
    requires place { k < 8 }
    requires there { k < h.now.timers }
    ensures places { length ticks.new ≡ 10 }
    ensures here { slice_index_or ticks.new (k + 2) no_line
        ≡ acked_where (timer_acks line h.now k) (slice_index_or ticks.old (k + 2) no_line) }
    ensures others { (j : ℕ) → j ≢ k + 2
        → slice_index_or ticks.new j no_line ≡ slice_index_or ticks.old j no_line }
    ensures levels { result ≡ timer_levels (is_legacy h.now) line k h.now
        (slice_index_or ticks.old (k + 2) no_line) }
{
    if !drives_now(line, k, h) {
        return Levels::DOWN;
    }
    if h.is_message(k) {
        return Levels::DOWN;
    }
    let shown = shows(line, k, h);
    if h.timer(k).is_level() {
        let up = both(shown, h.level(k));
        return Levels {
            before: up,
            between: up,
            after: up,
        };
    }
    let before = both(shown, ticks[k as usize + 2].is_up());
    let again = ack_at(ticks, k as usize + 2);
    Levels {
        before,
        between: false,
        after: both(shown, again),
    }
}

/// Acknowledges the tick lines of the timers that the line reaches.
fn ack_timers(ticks: &mut [TickLine; 10], h: &Hpet, line: u8) -> Levels
    ensures places { length ticks.new ≡ 10 }
    ensures front { (j : ℕ) → j < 2
        → slice_index_or ticks.new j no_line ≡ slice_index_or ticks.old j no_line }
    ensures timers { (k : ℕ) → k < 8 → slice_index_or ticks.new (k + 2) no_line
        ≡ acked_where (timer_acks line h.now k) (slice_index_or ticks.old (k + 2) no_line) }
    ensures before { result.before ≡ shown_by (is_legacy h.now) line 8 h.now ticks.old }
    ensures between { result.between ≡ shown_by (is_legacy h.now) line 8 h.now
        (each (λ k l. down_where (acks line h.now k) l) 0 ticks.old) }
    ensures after { result.after ≡ shown_by (is_legacy h.now) line 8 h.now
        (each (λ k l. acked_where (acks line h.now k) l) 0 ticks.old) }
{
    let _parts = h.parts();
    if both(!h.legacy(), !is_io_line(line)) {
        return Levels::DOWN;
    }
    let mut levels = Levels::DOWN;
    for k in 0..h.timers() {
        levels = joined(levels, ack_timer(ticks, h, k, line));
    }
    levels
}

/// Acknowledges the tick lines that the line reaches. Answers its levels; one that isn't among the
/// six, and that of the clock, stay down.
pub(crate) fn ack_lines(ticks: &mut [TickLine; 10], h: &Hpet, line: u8) -> Levels
    ensures state { ticks.new ≡ each (λ k l. acked_where (acks line h.now k) l) 0 ticks.old }
    ensures before { result.before ≡ level_by (is_legacy h.now) line h.now ticks.old }
    ensures between { result.between ≡ level_by (is_legacy h.now) line h.now
        (each (λ k l. down_where (acks line h.now k) l) 0 ticks.old) }
    ensures after { result.after ≡ level_by (is_legacy h.now) line h.now
        (each (λ k l. acked_where (acks line h.now k) l) 0 ticks.old) }
{
    let timers = ack_timers(ticks, h, line);
    if !both(line == 0, !h.legacy()) {
        return timers;
    }
    let before = ticks[0].is_up();
    let after = ack_at(ticks, 0);
    Levels {
        before,
        between: false,
        after,
    }
}

/// Whether both of two hold.
fn both(a: bool, b: bool) -> bool
    ensures { result ≡ (a && b) }
{
    a && b
}
