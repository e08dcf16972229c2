//! Reads of the pages and of the clock, and the publishing of a page by a move.
ghost use Rattle.std.specs.Prelude.{◌≡◌, ◌<◌, IsTrue};
ghost use Rattle.board_types.specs.declared.parts.TheConstants.{LAST_VERSION};
ghost use Rattle.board_core.specs.Tsc.{processor_at, with_tsc};
ghost use Rattle.board_core.specs.Conditions.{flags_valid};
ghost use Rattle.board_core.specs.Outcome.{IsPageRead, IsClockRead};
ghost use Rattle.board_core.specs.Pages.{page_reply, clamped, greatest_with, published_at_host};

use crate::board::BoardState;
use crate::processors::{page_in, published, scale_by, tsc_read};
use board_types::ProcessorParts;
use host_counter::TimeFault;
use pvclock_page::{ClockReply, PageReply, reading};
use tsc_scale::Tsc;

impl BoardState {
    /// What a read of the page of `cpu` at count `h` answers. It moves no time and takes no number.
    // Inlined, a reading of the clock moves no page through memory.
    #[inline(always)]
    pub fn page_of(&self, cpu: u8, h: u64) -> Result<PageReply, TimeFault>
        requires { cpu < self.now.cpus }
        ensures { IsPageRead self.now cpu h result }
    {
        self.time_to(h)?;
        Ok(self.page_reply(cpu, h))
    }

    /// What a read of the clock by the page of `cpu` at count `h` answers: no clock reads less than one before it.
    /// It moves no time and takes no number.
    #[tactic(auto, unfolding(crate::specs::Pages::clock_reply, crate::specs::Pages::after_clock))]
    pub fn clock_of(&mut self, cpu: u8, h: u64) -> Result<ClockReply, TimeFault>
        requires { cpu < self.old.cpus }
        ensures { IsClockRead self.old cpu h result self.new }
    {
        let read = self.page_of(cpu, h)?;
        let told = clamped(self.greatest, read);
        self.greatest = greatest_with(self.greatest, read);
        Ok(told)
    }

    /// What the page gives at a count.
    #[tactic(auto, unfolding(crate::specs::Pages::page_reply))]
    fn page_reply(&self, cpu: u8, h: u64) -> PageReply
        requires { cpu < self.now.cpus }
        ensures { result ≡ page_reply self.now cpu h }
    {
        let p = &self.processors[cpu as usize];
        let page = page_in(p);
        if page.enabled {
            let tsc = tsc_read(p, self.anchor, self.guest_khz, h);
            PageReply::On {
                page,
                reading: reading(&page, tsc),
            }
        } else {
            PageReply::Off
        }
    }

    /// Sets the TSC of a processor and publishes its page at the greatest count of all accesses, with flags 1 or,
    /// after a move, 3. All else stays.
    #[tactic(auto, unfolding(crate::specs::Pages::published_at_host))]
    pub fn publish(&mut self, cpu: u8, tsc: Tsc, flags: u8)
        requires cpu { cpu < self.old.cpus }
        requires flags { IsTrue (flags_valid flags) }
        requires version { (processor_at self.old cpu).version < LAST_VERSION }
        ensures { self.new ≡ published_at_host cpu tsc flags self.old }
    {
        let before = self.processors[cpu as usize];
        let scale = scale_by(&before, self.guest_khz);
        let p = with_tsc(before, tsc);
        self.processors[cpu as usize] = published(
            p,
            self.anchor,
            self.guest_khz,
            self.host,
            flags,
            scale,
        );
    }
}

/// A processor with another TSC.
fn with_tsc(p: ProcessorParts, tsc: Tsc) -> ProcessorParts
    ensures { result ≡ with_tsc tsc p }
{
    ProcessorParts {
        offset: tsc.offset,
        adjust: tsc.adjust,
        ..p
    }
}

/// What a clock reads, by a page's reading and the greatest of all readings before.
fn clamped(greatest: u64, read: PageReply) -> ClockReply
    ensures { result ≡ clamped greatest read }
{
    match read {
        PageReply::Off => ClockReply::Off,
        PageReply::On { reading, .. } => ClockReply::On {
            reading,
            clock: reading.max(greatest),
        },
    }
}

/// The greatest of all readings, with this one.
fn greatest_with(greatest: u64, read: PageReply) -> u64
    ensures { result ≡ greatest_with greatest read }
{
    match read {
        PageReply::Off => greatest,
        PageReply::On { reading, .. } => reading.max(greatest),
    }
}
