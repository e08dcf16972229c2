//! Why a record is refused, in the words that are printed for it.
ghost use Rattle.std.specs.Prelude.{◌≡◌};
ghost use Rattle.trace_blocks.specs.Refusals.{refused_access, refused_fault, refused_move};

use board_core::Refusal;
use host_counter::TimeFault;
use reply_text::{Reason, Refused};
use transfer::MoveFault;

/// An access that the board refuses.
pub fn refused_access(refusal: Refusal) -> Refused
    ensures { result ≡ refused_access refusal }
{
    match refusal {
        Refusal::NoTime(fault) => refused_time(fault),
        Refusal::VersionsSpent { version } => Refused::Versions { version },
        Refusal::Spent { number } => Refused::Spent { number },
    }
}

/// A count that has no time. One before the anchor's fell below it.
pub fn refused_time(fault: TimeFault) -> Refused
    ensures { result ≡ refused_fault fault }
{
    match fault {
        TimeFault::BeforeStart { start } => {
            Refused::Invalid(Reason::CounterFell { before: start })
        }
        TimeFault::OutOfRange { ns } => Refused::Range { ns },
    }
}

/// A move that is refused.
pub fn refused_move(fault: MoveFault) -> Refused
    ensures { result ≡ refused_move fault }
{
    match fault {
        MoveFault::OutOfRange { ns } => Refused::Range { ns },
        MoveFault::VersionsSpent { version, .. } => Refused::Versions { version },
    }
}
