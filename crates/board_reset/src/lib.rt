//! A reset of the PC, as a monitor does it when its guest asks for one.
//!
//! Time goes on: the board keeps its clock, its number of accesses, its policies and its processors'
//! TSCs. The devices are as at power on, but the MC146818, whose RESET pin stops its interrupts and
//! leaves the time and the memory. No page is enabled, no local APIC's timer is armed, and ticks and
//! rises are counted from 0 again. A line that was up goes down.
//!
//! ```text
//! let edges = reset(&mut board);     // the lines that fell
//! board.now() == before.now()
//! board.lines() == Lines::default()
//! ```
#![tactic(auto)]

mod resets;

pub use resets::reset;
