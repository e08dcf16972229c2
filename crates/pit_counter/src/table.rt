//! The mode table: what one CLK pulse does. Intel 8254 data sheet, "Mode Definitions".

ghost use Rattle.std.specs.Prelude.{◌≡◌, ◌&&◌, ◌||◌, not};
ghost use Rattle.pit_counter.specs.Mode.{mode_of};
ghost use Rattle.pit_counter.specs.Table.{effect_in, affected, has_risen, pulsed};

use crate::count::{is_odd_square, loaded_count, lowered};
use crate::mode::{Mode, mode_of};
use crate::parts::CounterParts;

/// What one CLK pulse does to a counter.
#[derive(Clone, Copy, Debug, PartialEq, Eq)]
pub enum Effect {
    /// The count is loaded and not counted, and OUT takes this level.
    Load(bool),
    /// The count goes down by 1; OUT goes high where it becomes 0.
    DownToHigh,
    /// The count goes down by 1; OUT goes low where it becomes 1.
    DownToLow,
    /// The count goes down by 2.
    DownByTwo,
    /// The count goes down by 1; OUT is high, but low where it becomes 0 and a strobe is due.
    DownToStrobe,
    /// No load and no count; OUT takes this level.
    Stand(bool),
}

/// The effect of a pulse: that of the first row of the mode that applies.
#[tactic(auto, unfolding(crate::specs::Table::effect_in))]
#[inline(always)]
fn effect_in(mode: Mode, p: &CounterParts) -> Effect
    ensures { result ≡ effect_in mode p.now }
{
    match mode {
        Mode::TerminalCount => effect_in_terminal_count(p),
        Mode::OneShot => effect_in_one_shot(p),
        Mode::RateGenerator => effect_in_rate_generator(p),
        Mode::SquareWave => effect_in_square_wave(p),
        Mode::SoftwareStrobe => effect_in_software_strobe(p),
        Mode::HardwareStrobe => effect_in_hardware_strobe(p),
    }
}

/// Mode 0.
#[tactic(auto, unfolding(crate::specs::Table::effect_in))]
#[inline(always)]
fn effect_in_terminal_count(p: &CounterParts) -> Effect
    ensures { result ≡ effect_in Mode.TerminalCount p.now }
{
    if p.null && p.full {
        Effect::Load(p.out)
    } else if p.live && p.gate && !p.part_there {
        Effect::DownToHigh
    } else {
        Effect::Stand(p.out)
    }
}

/// Mode 1.
#[tactic(auto, unfolding(crate::specs::Table::effect_in))]
#[inline(always)]
fn effect_in_one_shot(p: &CounterParts) -> Effect
    ensures { result ≡ effect_in Mode.OneShot p.now }
{
    if p.trig {
        Effect::Load(false)
    } else if p.live {
        Effect::DownToHigh
    } else {
        Effect::Stand(p.out)
    }
}

/// Modes 2 and 3: the first count or a trigger loads.
#[inline(always)]
fn loads_at_once(p: &CounterParts) -> bool
    ensures { result ≡ ((p.now.full && not p.now.live) || p.now.trig) }
{
    if p.live { p.trig } else { p.full || p.trig }
}

/// Mode 2.
#[tactic(auto, unfolding(crate::specs::Table::effect_in))]
#[inline(always)]
fn effect_in_rate_generator(p: &CounterParts) -> Effect
    ensures { result ≡ effect_in Mode.RateGenerator p.now }
{
    if loads_at_once(p) {
        Effect::Load(true)
    } else if p.live && p.gate && p.ce == 1 {
        Effect::Load(true)
    } else if p.live && p.gate {
        Effect::DownToLow
    } else {
        Effect::Stand(p.out)
    }
}

/// Mode 3.
#[tactic(auto, unfolding(crate::specs::Table::effect_in))]
#[inline(always)]
fn effect_in_square_wave(p: &CounterParts) -> Effect
    ensures { result ≡ effect_in Mode.SquareWave p.now }
{
    if loads_at_once(p) {
        Effect::Load(true)
    } else if p.live && p.gate && p.out && p.odd && p.ce == 0 {
        Effect::Load(false)
    } else if p.live && p.gate && p.out && p.odd {
        Effect::DownByTwo
    } else if p.live && p.gate && p.ce == 2 {
        Effect::Load(!p.out)
    } else if p.live && p.gate {
        Effect::DownByTwo
    } else {
        Effect::Stand(p.out)
    }
}

/// Mode 4.
#[tactic(auto, unfolding(crate::specs::Table::effect_in))]
#[inline(always)]
fn effect_in_software_strobe(p: &CounterParts) -> Effect
    ensures { result ≡ effect_in Mode.SoftwareStrobe p.now }
{
    if p.null && p.full {
        Effect::Load(true)
    } else if p.live && p.gate {
        Effect::DownToStrobe
    } else {
        Effect::Stand(true)
    }
}

/// Mode 5.
#[tactic(auto, unfolding(crate::specs::Table::effect_in))]
#[inline(always)]
fn effect_in_hardware_strobe(p: &CounterParts) -> Effect
    ensures { result ≡ effect_in Mode.HardwareStrobe p.now }
{
    if p.trig {
        Effect::Load(true)
    } else if p.live {
        Effect::DownToStrobe
    } else {
        Effect::Stand(true)
    }
}

/// The counter after a pulse with this effect.
pub fn affected(effect: Effect, p: CounterParts) -> CounterParts
    ensures { result ≡ affected effect p }
{
    match effect {
        Effect::Load(level) => loaded(level, p),
        Effect::DownToHigh => {
            let ce = lowered(p.bits, p.ce, 1);
            CounterParts {
                ce,
                out: p.out || ce == 0,
                ..p
            }
        }
        Effect::DownToLow => {
            let ce = lowered(p.bits, p.ce, 1);
            CounterParts {
                ce,
                out: p.out && ce != 1,
                ..p
            }
        }
        Effect::DownByTwo => CounterParts {
            ce: lowered(p.bits, p.ce, 2),
            ..p
        },
        Effect::DownToStrobe => {
            let ce = lowered(p.bits, p.ce, 1);
            let strobes = p.armed && ce == 0;
            CounterParts {
                ce,
                out: !strobes,
                armed: p.armed && ce != 0,
                ..p
            }
        }
        Effect::Stand(level) => CounterParts { out: level, ..p },
    }
}

/// The counter after a load.
pub fn loaded(level: bool, p: CounterParts) -> CounterParts
    ensures { result ≡ affected (Effect.Load level) p }
{
    CounterParts {
        ce: loaded_count(p.bits, p.cr),
        out: level,
        null: false,
        live: true,
        trig: false,
        armed: mode_of(p.bits).has_strobe(),
        odd: is_odd_square(p.bits, p.cr),
        ..p
    }
}

/// The effect of the next pulse.
// Inlined with all that it asks: where the effect is `Stand`, nothing more is asked, and a counter
// that doesn't count costs a quarter less.
#[inline(always)]
pub fn next_effect(p: &CounterParts) -> Effect
    ensures { result ≡ effect_in (mode_of p.now.bits) p.now }
{
    effect_in(mode_of(p.bits), p)
}

/// The fields after one CLK pulse, by the mode table (Intel 8254 data sheet, "Mode Definitions"). It is the plain form of
/// `Counter::pulses`, pulse by pulse, for whoever compares with it.
#[tactic(auto, unfolding(crate::specs::Table::pulsed))]
pub fn pulsed(parts: CounterParts) -> CounterParts
    ensures { result ≡ pulsed parts }
{
    affected(next_effect(&parts), parts)
}

/// OUT is low before and high after.
pub fn has_risen(before: &CounterParts, after: &CounterParts) -> bool
    ensures { result ≡ has_risen before.now after.now }
{
    !before.out && after.out
}
