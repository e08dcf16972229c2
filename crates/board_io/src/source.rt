ghost use Rattle.std.specs.Prelude.{◌<◌, length};
ghost use Rattle.board_io.specs.Ends.{Input, IsTaken};

/// The most bytes that a source gives.
pub(crate) const MOST_GIVEN: usize = 1 << 62;

/// A call failed: a source couldn't be read, or a sink couldn't be written.
#[derive(Clone, Copy, Debug, PartialEq, Eq)]
pub struct Failed;

/// Where bytes come from, in pieces.
///
/// A source counts its faults, a number that never falls, and the bytes that it has given. After
/// 2^62 of them each call fails, so a source without end ends in a fault.
pub trait Source {
    // What is known of it.
    ghost input: { Self → Input };

    /// Puts the next bytes at the front of `into`, and answers how many; 0 is the end of the input.
    /// A call that fails gives nothing.
    fn take(&mut self, into: &mut [u8]) -> Result<usize, Failed>
        requires { 0 < length into.old }
        ensures { IsTaken (input self.old) (input self.new) result into.new };
}
