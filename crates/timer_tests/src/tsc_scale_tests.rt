//! A guest's TSC that is written and read, and ratios at both ends of the range of rates.

use crate::checks::same;
use tsc_scale::{Tsc, ratio, tsc_by};

#[test]
fn a_write_to_either_register_moves_both(rt: HostRuntime) {
    let even = ratio(1_000_000, 1_000_000);
    let mut tsc = Tsc {
        offset: 0,
        adjust: 0,
    };
    tsc.write_tsc(1_000, even, 0);
    same(&rt, "TSC", tsc.read(1_500, even), 0x1f4);
    same(&rt, "TSC_ADJUST", tsc.adjust, 0xffff_ffff_ffff_fc18);
    tsc.write_adjust(0);
    same(
        &rt,
        "TSC after a write of TSC_ADJUST",
        tsc.read(1_500, even),
        0x5dc,
    );
}

#[test]
fn ratios_at_both_ends_of_the_rates(rt: HostRuntime) {
    let tsc = Tsc {
        offset: 0,
        adjust: 0,
    };
    let fastest = ratio(10_000_000, 100_000);
    let slowest = ratio(100_000, 10_000_000);
    same(&rt, "fastest", fastest, 0x64_0000_0000_0000);
    same(&rt, "slowest", slowest, 2_814_749_767_106);
    let third = ratio(1_000_000, 3_000_000);
    let cases = [
        (u64::MAX, fastest, u64::MAX - 99),
        (200, slowest, 1),
        (300, third, 99),
    ];
    for (h, ratio, read) in cases {
        same(&rt, (h, ratio), tsc.read(h, ratio), read);
    }
    let by_7 = tsc_by(7, 1_000, ratio(2_000_000, 1_000_000));
    same(&rt, "offset 7", by_7, 2_007);
}
