//! Which line of a trace is refused, and why.

use reply_text::Reason;

/// A line that is refused.
#[derive(Clone, Copy, Debug, PartialEq, Eq)]
pub struct RecordFault {
    /// The line's number, counted from 1.
    pub line: u64,
    /// Why it is refused.
    pub reason: Reason,
}
