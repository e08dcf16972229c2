//! Comparisons that are proved here once, and not at each place where they are made.
use std::fmt::Debug;
use std::process::Abort;

/// What was seen is what was wanted. If not, the test ends with both, and with the row that they are of.
pub(crate) fn same<R: Debug + Copy, T: Debug + PartialEq + Drop>(
    rt: &impl Abort,
    row: R,
    seen: T,
    wanted: T,
) {
    assert!(rt; seen == wanted, "{row:?}: {seen:?} in place of {wanted:?}");
}

/// It holds. If not, the test ends with the row that it is of.
pub(crate) fn holds<R: Debug + Copy>(rt: &impl Abort, row: R, it: bool) {
    assert!(rt; it, "{row:?}");
}
