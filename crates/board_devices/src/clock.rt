//! The tick line of the MC146818, which is PF while its ticks are counted.
ghost use Rattle.std.specs.Prelude.{◌≡◌, ◌&&◌, not, slice_index_or};
ghost use Rattle.rtc_registers.specs.Registers.{pie_of, pf_of};
ghost use Rattle.hpet_registers.specs.Parts.{is_legacy};
ghost use Rattle.tick_policy.specs.Line.{goes_again};
ghost use Rattle.board_devices.specs.Places.{no_line, each};
ghost use Rattle.board_devices.specs.Act.{rtc_set, acked_where};
ghost use Rattle.board_devices.specs.private.Pulses.{is_unheard};
ghost use Rattle.board_devices.specs.private.Stretch.{flagged_where, clock_place};

use hpet_registers::Hpet;
use rtc_registers::Rtc;
use tick_policy::TickLine;

/// Whether nobody hears the clock, as none of its interrupts is enabled.
#[inline(always)]
pub(crate) fn is_unheard(rtc: &Rtc) -> bool
    ensures { result ≡ is_unheard rtc.now }
{
    !rtc.pie() && !rtc.aie() && !rtc.uie()
}

/// Whether the ticks of the clock are counted.
pub(crate) fn counts_rtc(pie: bool, legacy: bool) -> bool
    ensures { result ≡ (pie && not legacy) }
{
    pie && !legacy
}

/// Whether the clock's tick line is up, by its registers.
pub(crate) fn clock_up(rtc: &Rtc, hpet: &Hpet) -> bool
    ensures { result ≡ ((pie_of rtc.now && not (is_legacy hpet.now)) && pf_of rtc.now) }
{
    rtc.pie() && !hpet.legacy() && rtc.pf()
}

/// Puts the clock's line up or down, counting nothing.
#[tactic(auto, using(crate::proofs::Masks::rtc_set_second))]
pub(crate) fn set_clock_line(ticks: &mut [TickLine; 10], up: bool)
    ensures { ticks.new ≡ each (rtc_set up) 0 ticks.old }
{
    let mut line = ticks[1];
    line.set_up(up);
    ticks[1] = line;
}

/// Sets PF where `flag` holds.
#[tactic(auto, unfolding(crate::specs::private::Stretch::flagged_where))]
pub(crate) fn set_flag(rtc: &mut Rtc, flag: bool)
    ensures { rtc.new ≡ flagged_where flag rtc.old }
{
    if flag {
        rtc.set_pf();
    }
}

/// Whether the clock's line goes up again, where `b` holds.
pub(crate) fn again_where(b: bool, ticks: &[TickLine; 10]) -> bool
    ensures { result ≡ (b && goes_again (slice_index_or ticks.now 1 no_line)) }
{
    b && ticks[1].goes_again()
}

/// Acknowledges the clock's line, where `b` holds.
pub(crate) fn ack_clock_line(ticks: &mut [TickLine; 10], b: bool)
    ensures { ticks.new ≡ each (λ k l. acked_where (clock_place b k) l) 0 ticks.old }
{
    if b {
        let mut line = ticks[1];
        line.ack();
        ticks[1] = line;
    }
}
