//! The records of a trace, and what they are answered.
use board_core::Reply;
use hv_page::HvReply;
use pvclock_page::{ClockReply, PageReply};
use trace_records::Call;

/// A record of a trace.
#[derive(Clone, Copy, Debug, PartialEq, Eq)]
pub struct Record {
    /// Its line, counted from 1.
    pub line: u64,
    /// The processor.
    pub cpu: u8,
    /// The host's counter.
    pub h: u64,
    /// What is asked.
    pub call: Call,
}

/// What a record is answered.
#[derive(Drop)]
pub enum Answer {
    /// The reply of the board.
    Acted { reply: Reply },
    /// A page.
    PageIs { reply: PageReply },
    /// A reading of the clock.
    ClockIs { reply: ClockReply },
    /// The reference page.
    HvIs { reply: HvReply },
}
