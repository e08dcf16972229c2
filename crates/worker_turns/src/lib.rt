//! How the workers of a race meet: they begin together, and take turns where few of their records are left.
//!
//! The numbers of the accesses, which a race prints, say in which order the workers were answered, and the host decides that
//! order. So that records of different workers do fall beside each other, no worker begins before all have come, and the last
//! records of each begin in turns that each draws. No wait is without an end: where a worker is late, the others go on without it.
//!
//! ```text
//! let schedule = Schedule::new(2);                // workers 0 and 1
//!
//! schedule.start(rt, true);                       // each worker, in its thread: waits for the others
//! schedule.come(worker);                          // it takes turns from now on
//! schedule.wait(worker);                          // until it is its turn
//! schedule.begin(next);                           // .. and then it is that of `next`
//! schedule.leave(worker);                         // at its last record
//!
//! schedule.arrived()                              // what a race came to that didn't begin together
//! schedule.has_given_up()
//! schedule.turn()
//! ```
#![tactic(auto)]

mod schedule;

pub use schedule::{FEW_LOOKS, Schedule};
