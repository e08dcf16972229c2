//! Random numbers.
ghost use Rattle.std.specs.Prelude.{◌<◌};

/// The constants of Knuth's linear generator modulo 2^64. The low bits of its numbers come round soon, so the high ones
/// are taken.
const FACTOR: u64 = 6_364_136_223_846_793_005;

const ADDEND: u64 = 1_442_695_040_888_963_407;

const HIGH: u32 = 33;

/// Random numbers, which differ from run to run once they were stirred by a number that does.
#[derive(Clone, Copy)]
pub(crate) struct Draws {
    state: u64,
}

impl Draws {
    /// The numbers from a seed on.
    pub(crate) fn new(seed: u64) -> Draws {
        Draws { state: seed }
    }

    /// Makes the next numbers depend on this one.
    pub(crate) fn stir(&mut self, chance: u64) {
        self.state = self.state.wrapping_add(chance).wrapping_mul(FACTOR);
    }

    /// A number below `end`.
    pub(crate) fn below(&mut self, end: u64) -> u64
        requires { 0 < end }
        ensures { result < end }
    {
        self.state = self.state.wrapping_mul(FACTOR).wrapping_add(ADDEND);
        (self.state >> HIGH) % end
    }
}
