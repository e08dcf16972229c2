//! The records of a trace: a processor, a count of the host's counter, and what is done there.
//!
//! They are data alone. `trace_text` reads them from lines; a replay and a race answer them. `docs/FORMATS.md` has the
//! lines.
#![tactic(auto)]

use board_types::Access;

/// What a record asks of the board.
#[derive(Clone, Copy, Debug, PartialEq, Eq)]
pub enum Call {
    /// An access.
    Act { access: Access },
    /// The page of this processor is read.
    ReadPage { page: u8 },
    /// The clock is read by the page of this processor.
    ReadClock { page: u8 },
    /// The reference page of Hyper-V is read; from format 4 on.
    ReadHv,
}

/// What a record does.
#[derive(Clone, Copy, Debug, PartialEq, Eq)]
pub enum Job {
    /// It asks something of the board.
    Ask(Call),
    /// The board is saved.
    Save,
    /// The board moves to a host of this rate in kHz, whose counter is at `start`, after a gap in nanoseconds.
    Move { khz: u64, start: u64, gap: u64 },
}

/// A record of a trace.
#[derive(Clone, Copy, Debug, PartialEq, Eq)]
pub struct Record {
    /// The processor.
    pub cpu: u8,
    /// The host's counter.
    pub h: u64,
    /// What it does.
    pub job: Job,
}

/// A record that asks for an access.
#[derive(Clone, Copy, Debug, PartialEq, Eq)]
pub struct Asked {
    /// The processor.
    pub cpu: u8,
    /// The host's counter.
    pub h: u64,
    /// The access.
    pub access: Access,
}

/// A record that reads the clock.
#[derive(Clone, Copy, Debug, PartialEq, Eq)]
pub struct ClockRead {
    /// The processor.
    pub cpu: u8,
    /// The host's counter.
    pub h: u64,
    /// The processor by whose page it is read.
    pub page: u8,
}

impl Asked {
    ghost use Rattle.std.specs.Prelude.{◌≡◌};
    ghost use Rattle.trace_records.specs.Calls.{asking};

    /// The record that it is.
    #[inline(always)]
    pub fn record(self) -> Record
        ensures { result ≡ asking self }
    {
        Record {
            cpu: self.cpu,
            h: self.h,
            job: Job::Ask(Call::Act {
                access: self.access,
            }),
        }
    }
}
