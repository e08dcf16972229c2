//! What a call reads of the pages, and what it is answered.
use hv_page::HvReply;
use pvclock_page::{ClockReply, PageReply};

/// What is read.
#[derive(Clone, Copy, Debug, PartialEq, Eq)]
pub enum Read {
    /// The page of this processor.
    Page { cpu: u8 },
    /// The clock, by the page of this processor.
    Clock { cpu: u8 },
    /// The reference page of Hyper-V; from format 4 on.
    Hv,
}

/// What a read is answered.
#[derive(Clone, Copy, Debug, PartialEq, Eq)]
pub enum ReadReply {
    /// A page.
    Page { reply: PageReply },
    /// A reading of the clock.
    Clock { reply: ClockReply },
    /// The reference page.
    Hv { reply: HvReply },
}
