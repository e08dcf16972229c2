ghost use Rattle.std.specs.Prelude.{◌<◌, length};
ghost use Rattle.board_io.specs.Ends.{Output, IsPut};

use crate::source::Failed;

/// Where bytes go, in pieces. A sink counts its faults, a number that never falls.
pub trait Sink {
    // What is known of it.
    ghost output: { Self → Output };

    /// Takes bytes from the front of `piece`, and answers how many, at least one. A call that fails
    /// takes nothing; a sink that can take nothing has failed.
    fn put(&mut self, piece: &[u8]) -> Result<usize, Failed>
        requires { 0 < length piece.now }
        ensures { IsPut (output self.old) (output self.new) result piece.now };
}
