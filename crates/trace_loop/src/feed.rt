//! What a run over lines holds.
ghost use Rattle.std.specs.Prelude.{◌≡◌, []};

use crate::lines::Lines;
use std::alloc::Global;

/// What a run over lines holds: the part of the source's last piece that wasn't looked at, and what was printed since
/// the last put.
#[derive(Drop)]
pub(crate) struct Feed {
    pub(crate) lines: Lines,
    pub(crate) out: Vec<u8>,
}

impl Feed {
    /// Before the first byte.
    pub(crate) fn new(alloc: Global) -> Feed
        ensures lines { result.lines ≡ record { number = 0; line = []; text = []; left = [] } }
        ensures out { result.out.items ≡ [] }
    {
        Feed {
            lines: Lines::new(alloc),
            out: Vec::new(alloc),
        }
    }
}
