//! What entries of a history hold: what a page tells that is read, and which page an access publishes.
use crate::checks::{holds, same};
use board_core::Access;
use board_history::{Entry, answer_by, hv_answer_by, page_published, read_entry};
use board_types::{MSR_HV_REFERENCE_TSC, MSR_TSC};
use hv_page::{HvPage, HvReply};
use pvclock_page::{Page, PageReply};

/// The page of a guest of 2 GHz that was published at time 0, on a host of 1 GHz.
const PAGE: Page = Page {
    version: 2,
    tsc_timestamp: 0,
    system_time: 0,
    mul: 0x8000_0000,
    shift: 0,
    flags: 1,
    offset: 0,
    enabled: true,
};

/// The ratio of 2 GHz to 1 GHz, with 48 bits after the binary point.
const TWICE: u64 = 1 << 49;

#[test]
fn a_page_that_is_read_tells_its_time(rt: HostRuntime) {
    let on = PageReply::On {
        page: PAGE,
        reading: 900,
    };
    same(&rt, "on", answer_by(TWICE, &PAGE, 900), on);
    let off = Page {
        enabled: false,
        ..PAGE
    };
    same(&rt, "off", answer_by(TWICE, &off, 900), PageReply::Off);
}

#[test]
fn entries_tell_their_pass(rt: HostRuntime) {
    let clamp = Entry::Clamp {
        pass: 3,
        cpu: 0,
        reading: 900,
        clock: 1_000,
    };
    same(&rt, "a clamp", clamp.pass(), Some(3));
}

/// A scale of 2^63 counts each second tick; the page was published with a TSC of 100 more.
#[test]
fn a_reference_page_that_is_read_tells_its_time(rt: HostRuntime) {
    let page = HvPage {
        version: 2,
        scale: 1 << 63,
        offset: 7,
        tsc_offset: 100,
    };
    let on = HvReply::On { page, reading: 957 };
    same(&rt, "on", hv_answer_by(TWICE, &page, 900), on);
    let off = HvPage { scale: 0, ..page };
    same(&rt, "off", hv_answer_by(TWICE, &off, 900), HvReply::Off);
}

/// A write of 1 to an MSR.
const fn write(msr: u32) -> Access {
    Access::MsrWrite { msr, value: 1 }
}

/// Of two processors, processor 1 writes: its own page is published, or the reference page after both.
#[test]
fn a_write_publishes_one_page_of_the_table(rt: HostRuntime) {
    let rows = [
        (write(MSR_TSC), Some(1)),
        (write(MSR_HV_REFERENCE_TSC), Some(2)),
        (Access::Refresh { page: 0 }, Some(0)),
        (Access::Step, None),
    ];
    for (access, page) in rows {
        same(&rt, access, page_published(2, 1, access), page);
    }
}

/// A read of the reference page at count 900 under the lock, in pass 5.
fn is_hv(entry: Entry) -> bool {
    matches!(
        entry,
        Entry::HvRead {
            pass: 5,
            h: 900,
            locked: true,
            ..
        }
    )
}

/// A read of the page of processor 1 at count 900, in pass 5.
fn is_page(entry: Entry) -> bool {
    matches!(
        entry,
        Entry::PageRead {
            pass: 5,
            cpu: 1,
            h: 900,
            ..
        }
    )
}

#[test]
fn a_read_behind_the_processors_is_of_the_reference_page(rt: HostRuntime) {
    holds(&rt, 2, is_hv(read_entry(2, 5, 2, 900, &PAGE, true)));
    holds(&rt, 1, is_page(read_entry(2, 5, 1, 900, &PAGE, true)));
}
