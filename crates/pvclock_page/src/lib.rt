//! Pages of the paravirtual clock (pvclock, or kvmclock): how a guest makes nanoseconds of its TSC.
//!
//! A monitor publishes, for each processor, a page with a time, the TSC at that time, and a scale; the
//! guest adds to the time what its TSC has gone on since. The arithmetic and the 32 bytes that a guest
//! sees are those of Linux: `Documentation/virt/kvm/x86/msr.rst`, "MSR_KVM_SYSTEM_TIME_NEW", and
//! `arch/x86/include/asm/pvclock-abi.h`. What a page gives at a TSC before its own (own), that padding is 0 (own) and
//! how a page is kept in five words (own) are the project's choices.
//!
//! ```text
//! let news = Publishing { guest_khz: 2_000_000, tsc: 500, system_time: 1_000, flags: 1, offset: 0, enabled: true };
//! let page = published(0, &news);                           // version 2, scale 0x8000_0000 and 0
//! reading(&page, 2_500) == 2_000
//! words_page(&page_words(&page)) == page
//! ```
#![tactic(auto)]

mod guest;
mod page;
mod publish;
mod scale;
mod time;
mod words;

pub use guest::page_bytes;
pub use page::{ClockReply, GUEST_STOPPED, Page, PageReply, TSC_STABLE};
pub use publish::{Publishing, published};
pub use scale::scale_of;
pub use time::reading;
pub use words::{page_words, words_page};
