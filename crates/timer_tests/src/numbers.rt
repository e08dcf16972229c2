//! Numbers that differ from row to row, the same in every run.

/// The number after this one, by Knuth's linear generator modulo 2^64. Its low bits come round soon.
pub(crate) fn next_number(x: u64) -> u64 {
    x.wrapping_mul(6_364_136_223_846_793_005)
        .wrapping_add(1_442_695_040_888_963_407)
}
