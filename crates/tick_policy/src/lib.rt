//! A tick line of a timer, with the counts of its ticks and a policy for those that a guest misses.
//!
//! A source of ticks (a channel of the 8254, the periodic interrupt of the MC146818, a timer of the
//! HPET) makes a tick due at each of its events. The line goes up with the tick and comes down when
//! the guest acknowledges it. A tick that is due while the line is still up can't be shown: the
//! policy says what becomes of it. The names of the policies are QEMU's, all rules are the
//! project's (own).
//!
//! ```text
//! let mut line = TickLine::power_on(Policy::Delay);
//! line.due(11);
//! // counts: 11 due, 1 rise, 10 queued, none lost; the line is up
//! assert_eq!(line.ack(), Acked::DownUp);
//! // counts: 11 due, 2 rises, 9 queued, none lost; the line is up again
//! ```
#![tactic(auto)]

mod history;
mod line;
mod parts;
mod rules;
mod stretch;

pub use history::Event;
pub use line::{Acked, TickLine};
pub use parts::{Counts, Policy, TickField, TickParts, lost_valid, queue_valid};
pub use stretch::{run_line, up_from};
