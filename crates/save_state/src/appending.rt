//! The blocks of a saved state, appended to bytes. Each block's clause `fits` tells what the types of its fields
//! say, that each number fits its bytes: so the bytes are read as the block.
ghost use Rattle.std.specs.Prelude.{◌≡◌, ℕ, ◌++◌, OnOk};
ghost use Rattle.byte_table.specs.Codes.{flags_byte};
ghost use Rattle.byte_table.specs.Fold.{write};
ghost use Rattle.save_state.specs.Fields.{flags_from, counter, timer, line, tsc, page, processor};
ghost use Rattle.save_state.specs.private.Fits.{
  CounterFits,
  TimerFits,
  LineFits,
  TscFits,
  PageFits,
  ProcessorFits,
};

use board_core::ProcessorParts;
use byte_table::{flag_byte, flags_byte, put, put_2, put_4, put_8};
use clk_units::NoMemory;
use hpet_comparator::TimerParts;
use pit_counter::CounterParts;
use tick_policy::TickParts;

/// The flags of a counter, as a byte.
fn counter_flags(c: &CounterParts) -> u8
    ensures { result ≡ flags_byte 0 (flags_from c.now) }
{
    flags_byte(&[
        c.null, c.out, c.gate, c.full, c.live, c.armed, c.trig, c.odd,
    ])
}

/// Appends counter `k`, whichever it is.
#[tactic(auto, unfolding(crate::specs::Fields::counter, byte_table::specs::Kinds::plain))]
pub(crate) fn put_counter(out: &mut Vec<u8>, c: &CounterParts) -> Result<(), NoMemory>
    ensures bytes { (k : ℕ) → OnOk result (out.new.items ≡ out.old.items ++ write (counter k) c.now) }
    ensures fits { OnOk result (CounterFits c.now) }
{
    put(out, &[c.bits, counter_flags(c)])?;
    put_2(out, c.cr)?;
    put_2(out, c.ce)?;
    put(
        out,
        &[
            flag_byte(c.part_there),
            c.part,
            flag_byte(c.high_next),
            flag_byte(c.count_latched),
        ],
    )?;
    put_2(out, c.latched_count)?;
    put(out, &[flag_byte(c.status_latched), c.latched_status])
}

/// Appends timer `k`, whichever it is.
#[tactic(auto, unfolding(crate::specs::Fields::timer, byte_table::specs::Kinds::plain))]
pub(crate) fn put_timer(out: &mut Vec<u8>, t: &TimerParts) -> Result<(), NoMemory>
    ensures bytes { (k : ℕ) → OnOk result (out.new.items ≡ out.old.items ++ write (timer k) t.now) }
    ensures fits { OnOk result (TimerFits t.now) }
{
    put_2(out, t.config)?;
    put_8(out, t.comparator)?;
    put_8(out, t.period)
}

/// Appends tick line `k`, whichever it is.
#[tactic(auto, unfolding(crate::specs::Fields::line, byte_table::specs::Kinds::plain, byte_table::specs::Kinds::elsewhere))]
pub(crate) fn put_line(out: &mut Vec<u8>, l: &TickParts) -> Result<(), NoMemory>
    ensures bytes { (k : ℕ) → OnOk result (out.new.items ≡ out.old.items ++ write (line k) l.now) }
    ensures fits { OnOk result (LineFits l.now) }
{
    put(out, &[flag_byte(l.up)])?;
    put_8(out, l.counts.due)?;
    put_8(out, l.counts.rises)?;
    put_8(out, l.counts.queue)?;
    put_8(out, l.counts.lost)
}

/// Appends processor `k`, whichever it is.
pub(crate) fn put_processor(out: &mut Vec<u8>, p: &ProcessorParts) -> Result<(), NoMemory>
    ensures bytes { (k : ℕ) → OnOk result (out.new.items ≡ out.old.items ++ write (processor k) p.now) }
    ensures fits { OnOk result (ProcessorFits p.now) }
{
    put_tsc(out, p)?;
    put_page(out, p)
}

/// Appends the TSC of a processor, and the number and version of its page.
#[tactic(auto, unfolding(crate::specs::Fields::tsc, byte_table::specs::Kinds::plain))]
fn put_tsc(out: &mut Vec<u8>, p: &ProcessorParts) -> Result<(), NoMemory>
    ensures bytes { OnOk result (out.new.items ≡ out.old.items ++ write tsc p.now) }
    ensures fits { OnOk result (TscFits p.now) }
{
    put_8(out, p.offset)?;
    put_8(out, p.adjust)?;
    put_8(out, p.number)?;
    put_4(out, p.version)
}

/// Appends the page of a processor.
#[tactic(auto, unfolding(crate::specs::Fields::page, byte_table::specs::Kinds::plain))]
fn put_page(out: &mut Vec<u8>, p: &ProcessorParts) -> Result<(), NoMemory>
    ensures bytes { OnOk result (out.new.items ≡ out.old.items ++ write page p.now) }
    ensures fits { OnOk result (PageFits p.now) }
{
    put_8(out, p.tsc_timestamp)?;
    put_8(out, p.system_time)?;
    put_4(out, p.mul)?;
    put(out, &[p.shift.cast_unsigned(), p.flags])
}
