//! The blocks of a saved state, read whether or not their conditions hold.
ghost use Rattle.std.specs.Prelude.{◌≡◌, ℕ, ◌<◌, ◌^◌, true};
ghost use Rattle.hpet_registers.specs.Parts.{no_timer};
ghost use Rattle.board_devices.specs.Places.{no_line};
ghost use Rattle.board_core.specs.Tsc.{no_processor};
ghost use Rattle.byte_table.specs.Fold.{read};
ghost use Rattle.byte_table.specs.Reading.{IsPast};
ghost use Rattle.save_state.specs.Fields.{counter, no_counter, timer, ticks_of, processor};

use board_core::ProcessorParts;
use byte_table::Fields;
use clk_units::bit;
use hpet_comparator::TimerParts;
use pit_counter::CounterParts;
use tick_policy::{Counts, Policy, TickParts};

/// Counter `k`, whichever it is.
#[tactic(auto, unfolding(crate::specs::Fields::counter, byte_table::specs::Kinds::plain))]
pub(crate) fn counter_in(fields: &mut Fields) -> CounterParts
    requires { fields.old.place < 2 ^ 50 }
    ensures value { (k : ℕ) → result ≡ read (counter k) fields.old.place fields.old.bytes.now no_counter }
    ensures next { IsPast 14 fields.old fields.new }
{
    let bits = fields.byte();
    let flags = u64::from(fields.byte());
    CounterParts {
        bits,
        null: bit(0, flags),
        out: bit(1, flags),
        gate: bit(2, flags),
        full: bit(3, flags),
        live: bit(4, flags),
        armed: bit(5, flags),
        trig: bit(6, flags),
        odd: bit(7, flags),
        cr: fields.two(),
        ce: fields.two(),
        part_there: fields.flag(),
        part: fields.byte(),
        high_next: fields.flag(),
        count_latched: fields.flag(),
        latched_count: fields.two(),
        status_latched: fields.flag(),
        latched_status: fields.byte(),
    }
}

/// Timer `k`, whichever it is.
#[tactic(auto, unfolding(crate::specs::Fields::timer, byte_table::specs::Kinds::plain))]
pub(crate) fn timer_in(fields: &mut Fields) -> TimerParts
    requires { fields.old.place < 2 ^ 50 }
    ensures value { (k : ℕ) → result ≡ read (timer k) fields.old.place fields.old.bytes.now no_timer }
    ensures next { IsPast 18 fields.old fields.new }
{
    TimerParts {
        config: fields.two(),
        comparator: fields.eight(),
        period: fields.eight(),
    }
}

/// A tick line with this policy.
#[tactic(auto, unfolding(byte_table::specs::Kinds::plain))]
pub(crate) fn ticks_in(fields: &mut Fields, policy: Policy) -> TickParts
    requires { fields.old.place < 2 ^ 50 }
    ensures value { result ≡ read (ticks_of (λ l. l) (λ x l. x) (λ b l. true)) fields.old.place
        fields.old.bytes.now (record no_line { policy = policy }) }
    ensures next { IsPast 33 fields.old fields.new }
{
    TickParts {
        policy,
        up: fields.flag(),
        counts: Counts {
            due: fields.eight(),
            rises: fields.eight(),
            queue: fields.eight(),
            lost: fields.eight(),
        },
    }
}

/// Processor `k`, whichever it is.
#[tactic(auto, unfolding(crate::specs::Fields::tsc, crate::specs::Fields::page, byte_table::specs::Kinds::plain))]
pub(crate) fn processor_in(fields: &mut Fields) -> ProcessorParts
    requires { fields.old.place < 2 ^ 50 }
    ensures value { (k : ℕ) → result ≡ read (processor k) fields.old.place fields.old.bytes.now no_processor }
    ensures next { IsPast 50 fields.old fields.new }
{
    ProcessorParts {
        offset: fields.eight(),
        adjust: fields.eight(),
        number: fields.eight(),
        version: fields.four(),
        tsc_timestamp: fields.eight(),
        system_time: fields.eight(),
        mul: fields.four(),
        shift: fields.byte().cast_signed(),
        flags: fields.byte(),
    }
}
