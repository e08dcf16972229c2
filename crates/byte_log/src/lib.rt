//! A log of the calls of a source or a sink, for clauses alone. It takes no memory, and its methods do nothing at run
//! time: what it holds is ghost data, which only these methods write.
#![tactic(auto)]

ghost use Rattle.std.specs.Prelude.{◌≡◌, List, [], ◌∷◌, take};
ghost use Rattle.std.specs.Borrow.{ftrue};
ghost use Rattle.byte_log.specs.Calls.{Call, Moved, Failed};

use std::marker::{Model, PhantomData};

/// The calls that were logged, the last one first.
#[derive(Drop)]
pub struct ByteLog {
    marker: PhantomData<u8>,
    pub ghost calls: { List Call },
}

impl Model for ByteLog {
    ghost also_owns = { λ _. ftrue };
}

impl ByteLog {
    /// A log of no call.
    pub fn new() -> ByteLog
        ensures { result.calls ≡ [] }
    {
        ByteLog {
            marker: PhantomData,
        }
    }

    /// Logs a call that read, or accepted, the first `n` bytes of a piece.
    pub fn add(&mut self, _piece: &[u8], _n: usize)
        ensures { self.new.calls ≡ Moved (take _n _piece.now) ∷ self.old.calls }
    {}

    /// Logs a call that failed.
    pub fn fail(&mut self)
        ensures { self.new.calls ≡ Failed ∷ self.old.calls }
    {}
}
