//! The reference TSC page of Hyper-V: how a guest makes times of its TSC, in units of 100 ns.
//!
//! There is one page for all processors, with a scale and an offset. A guest multiplies its TSC by
//! the scale, takes the high 64 bits of the product, and adds the offset: Microsoft's Hypervisor
//! Top Level Functional Specification (TLFS), "Partition Reference Time Enlightenment", with its
//! names `TscSequence`, `TscScale` and `TscOffset`. How a page is kept in the words of a pvclock
//! page is this project's own choice.
//!
//! ```text
//! let off = HvPage { version: 0, scale: 0, offset: 0, tsc_offset: 0 };
//! let page = published(&off, 2_000_000, 0, 2_000, 1_000);   // a TSC of 2 GHz, at 1000 ns
//! reading(&page, 2_000) == 10
//! reading(&page, 42_000) == 210
//! page_bytes(&page)[..4] == [1, 0, 0, 0]      // `TscSequence`, as the guest sees it
//! of_page(&as_page(&page)) == page
//! ```
#![tactic(auto)]

mod guest;
mod page;
mod scale;
mod time;
mod words;

pub use guest::{guest_sequence, page_bytes};
pub use page::{HvPage, HvReply, published, withdrawn};
pub use scale::scale_of;
pub use time::{reading, reply};
pub use words::{as_page, of_page};
