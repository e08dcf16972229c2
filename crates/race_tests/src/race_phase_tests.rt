//! A text in pieces. What a race prints is tested by its traces, in the crate of the runner's tests.
use crate::checks::same;
use race_phase::{SHORT, Text};
use std::test::Fail;

#[test]
fn short_texts_are_joined_and_long_ones_are_not(rt: HostRuntime) -> Result<(), Fail> {
    let alloc = rt.alloc();
    let mut text = Text::new(alloc);
    for len in [0, 3, 0, SHORT, SHORT + 1, 2, 5] {
        if text.append(vec![in alloc; b'.'; len]?).is_err() {
            return Err("no memory".into());
        }
    }
    let pieces = text.pieces();
    same(&rt, "pieces", pieces.len(), 3);
    for (piece, len) in pieces.iter().zip([SHORT + 3, SHORT + 1, 7]) {
        same(&rt, len, piece.len(), len);
    }
    Ok(())
}
