//! The reference TSC page of Hyper-V as a guest reads it: scales, readings, words and bytes.

use crate::checks::same;
use hv_page::{
    HvPage, HvReply, as_page, guest_sequence, of_page, page_bytes, published, reading, reply,
    scale_of, withdrawn,
};
use pvclock_page::page_words;

/// A page that was never published.
const OFF: HvPage = HvPage {
    version: 0,
    scale: 0,
    offset: 0,
    tsc_offset: 0,
};

#[test]
fn scales_of_rates(rt: HostRuntime) {
    same(&rt, "2 GHz", scale_of(2_000_000), 92_233_720_368_547_758);
    same(&rt, "100 MHz", scale_of(100_000), 1_844_674_407_370_955_161);
    same(&rt, "10 GHz", scale_of(10_000_000), 18_446_744_073_709_551);
}

/// A guest of 2 GHz on a host whose counter goes by nanoseconds.
#[test]
fn reads_units_of_100_ns(rt: HostRuntime) {
    let page = published(&OFF, 2_000_000, 0, 2_000, 1_000);
    let fields = (page.sequence(), page.scale, page.offset);
    same(&rt, "fields", fields, (1, 92_233_720_368_547_758, 1));
    for (tsc, time) in [(2_000, 10), (42_000, 210)] {
        same(&rt, tsc, reading(&page, tsc), time);
    }
    let on = HvReply::On { page, reading: 210 };
    same(&rt, "reply of a page", reply(&page, 42_000), on);
    same(&rt, "reply of none", reply(&OFF, 0), HvReply::Off);
}

#[test]
fn goes_on_from_a_moved_tsc(rt: HostRuntime) {
    // the TSC is 2^63 when the page is published at 100 s
    let page = published(&OFF, 3_000_000, 1 << 63, 1 << 63, 100_000_000_000);
    let cases = [
        (1 << 63, 1_000_000_000),
        // a unit behind
        ((1 << 63) + 3_000_000_000, 1_009_999_999),
        ((1 << 63) - 3_000_000_000, 990_000_000),
    ];
    for (tsc, time) in cases {
        same(&rt, tsc, reading(&page, tsc), time);
    }
}

#[test]
fn turned_off_by_the_next_publishing(rt: HostRuntime) {
    let page = withdrawn(&published(&OFF, 10_000_000, 5, 6, 7));
    let fields = (page.sequence(), page.scale, page.offset, page.tsc_offset);
    same(&rt, "fields", fields, (2, 0, 0, 0));
    same(&rt, "reply", reply(&page, 1 << 40), HvReply::Off);
}

#[test]
fn is_kept_in_the_words_of_a_pvclock_page(rt: HostRuntime) {
    let page = published(&OFF, 2_000_000, 9, 0, 500);
    let kept = as_page(&page);
    let words = [2, 92_233_720_368_547_758, 5, 1 << 48, 9];
    same(&rt, "words", page_words(&kept), words);
    same(&rt, "page", of_page(&kept), page);
    same(
        &rt,
        "words of a page that is off",
        page_words(&as_page(&OFF)),
        [0; 5],
    );
}

/// The bytes of a page whose fields differ in each byte; and those of a page that was withdrawn at
/// its second publishing have the sequence 0, though its version is 4.
#[test]
fn the_guest_sees_24_bytes(rt: HostRuntime) {
    let page = HvPage {
        version: 0x0204_0608,
        scale: 0x1112_1314_1516_1718,
        offset: 0x2122_2324_2526_2728,
        tsc_offset: 9,
    };
    let bytes = [
        0x04, 0x03, 0x02, 0x01, 0, 0, 0, 0, 0x18, 0x17, 0x16, 0x15, 0x14, 0x13, 0x12, 0x11, 0x28,
        0x27, 0x26, 0x25, 0x24, 0x23, 0x22, 0x21,
    ];
    same(&rt, page, page_bytes(&page), bytes);
    let off = withdrawn(&published(&OFF, 2_000_000, 0, 0, 500));
    let sequences = (off.sequence(), guest_sequence(&off));
    same(&rt, "sequences of a withdrawn page", sequences, (2, 0));
    same(&rt, "bytes of a withdrawn page", page_bytes(&off), [0; 24]);
}
