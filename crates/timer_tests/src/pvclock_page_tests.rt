//! Pages of the paravirtual clock as a guest of Linux reads them: scales, readings, words and bytes.

use crate::checks::{holds, same};
use pvclock_page::{
    ClockReply, GUEST_STOPPED, Page, PageReply, Publishing, TSC_STABLE, page_bytes, page_words,
    published, reading, scale_of, words_page,
};

/// A page of a TSC of 2 GHz that was published at time 0.
fn page() -> Page {
    Page {
        version: 2,
        tsc_timestamp: 0,
        system_time: 0,
        mul: 0x8000_0000,
        shift: 0,
        flags: TSC_STABLE,
        offset: 0,
        enabled: true,
    }
}

#[test]
fn scales_of_rates(rt: HostRuntime) {
    let cases = [
        (2_000_000_000, (0x8000_0000, 0)),
        (100_000_000, (0xa000_0000, 4)),
        (10_000_000_000, (0xcccc_cccc, -3)),
        (1_000_000_000, (0x8000_0000, 1)),
        (1_000_000_001, (4_294_967_291, 0)),
        (3_000_000_000, (0xaaaa_aaaa, -1)),
    ];
    for (hz, scale) in cases {
        same(&rt, hz, scale_of(hz), scale);
    }
}

#[test]
fn a_page_that_is_published(rt: HostRuntime) {
    let news = Publishing {
        guest_khz: 2_000_000,
        tsc: 2_000_004_000,
        system_time: 1_000_002_000,
        flags: TSC_STABLE | GUEST_STOPPED,
        offset: 4_000,
        enabled: true,
    };
    let next = published(2, &news);
    let fields = (next.version, next.mul, next.shift, next.flags);
    same(&rt, "fields", fields, (4, 0x8000_0000, 0, 3));
    same(&rt, "reading", reading(&next, 2_000_006_000), 1_000_003_000);
}

#[test]
fn readings_of_a_page(rt: HostRuntime) {
    let moved = Page {
        tsc_timestamp: 2_000_004_000,
        system_time: 1_000_002_000,
        flags: TSC_STABLE | GUEST_STOPPED,
        ..page()
    };
    let last = Page {
        system_time: u64::MAX,
        ..page()
    };
    let cases = [
        (page(), 2_000, 1_000),
        (page(), 1_800, 900),
        (moved, 2_000_006_000, 1_000_003_000),
        // a TSC behind its timestamp
        (moved, 2_000_003_999, 1_000_002_000),
        (page(), (1 << 63) - 1, 0x3fff_ffff_ffff_ffff),
        (page(), 1 << 63, 0),
        // the time wraps
        (last, 2, 0),
    ];
    for (page, tsc, time) in cases {
        same(&rt, (page, tsc), reading(&page, tsc), time);
    }
}

#[test]
fn shifts_of_both_signs(rt: HostRuntime) {
    let cases = [
        (4, 0x8000_0000, 5, 40),
        (40, 0xffff_ffff, (1 << 63) - 1, 0xffff_ff00_0000_0100),
        (95, 1, 1, 1 << 63),
        (127, 0xffff_ffff, 3, 0),
        (-1, 0xaaaa_aaaa, 7, 1),
        (-62, 0xffff_ffff, (1 << 63) - 1, 0),
        (-128, 0xffff_ffff, (1 << 63) - 1, 0),
    ];
    for (shift, mul, tsc, time) in cases {
        let scaled = Page {
            mul,
            shift,
            ..page()
        };
        same(&rt, shift, reading(&scaled, tsc), time);
    }
}

#[test]
fn words_keep_each_field(rt: HostRuntime) {
    let page = Page {
        version: 4,
        tsc_timestamp: 5,
        system_time: 6,
        mul: 0x8000_0001,
        shift: -1,
        flags: 3,
        offset: u64::MAX,
        enabled: true,
    };
    let words = page_words(&page);
    same(&rt, "words", words, [4, 5, 6, 0x1_03ff_8000_0001, u64::MAX]);
    same(&rt, "page", words_page(&words), page);
    let off = words_page(&[1, 0, 0, 0xfffe_037f_0000_0002, 0]);
    let fields = (off.mul, off.shift, off.flags, off.enabled);
    same(&rt, "page that is off", fields, (2, 127, 3, false));
}

#[test]
fn the_guest_sees_32_bytes(rt: HostRuntime) {
    let page = Page {
        version: 0x0102_0304,
        tsc_timestamp: 0x1112_1314_1516_1718,
        system_time: 0x2122_2324_2526_2728,
        mul: 0x3132_3334,
        shift: -2,
        flags: 1,
        offset: 9,
        enabled: true,
    };
    let bytes = [
        0x04, 0x03, 0x02, 0x01, 0, 0, 0, 0, 0x18, 0x17, 0x16, 0x15, 0x14, 0x13, 0x12, 0x11, 0x28,
        0x27, 0x26, 0x25, 0x24, 0x23, 0x22, 0x21, 0x34, 0x33, 0x32, 0x31, 0xfe, 1, 0, 0,
    ];
    same(&rt, page, page_bytes(&page), bytes);
}

#[test]
fn replies_tell_what_they_hold(rt: HostRuntime) {
    let read = PageReply::On {
        page: page(),
        reading: 7,
    };
    let other = PageReply::On {
        page: page(),
        reading: 7,
    };
    same(&rt, "reply of a page", read, other);
    holds(&rt, "reply of a page", read != PageReply::Off);
    let clock = ClockReply::On {
        reading: 7,
        clock: 9,
    };
    holds(&rt, "reply of the clock", ClockReply::Off != clock);
}
