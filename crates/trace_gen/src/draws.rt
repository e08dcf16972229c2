//! The pseudo-random numbers, and what a record takes from them.
ghost use Rattle.std.specs.Prelude.{◌≡◌, ◌+◌, ◌<◌, ◌≤◌, ◌^◌};
ghost use Rattle.trace_gen.specs.Draws.{next_state, value_of, kind_of, byte_of};

/// The multiplier of the sequence.
const MULTIPLIER: u64 = 6_364_136_223_846_793_005;

/// Its increment.
const INCREMENT: u64 = 1_442_695_040_888_963_407;

/// By how many nanoseconds two records lie apart, at most 1 less.
const SPREAD: u64 = 100_000;

/// How many kinds of records there are.
const KINDS: u64 = 16;

/// The place in a sequence.
#[derive(Clone, Copy)]
pub(crate) struct Draws {
    /// Its last number; at first the key.
    pub(crate) state: u64,
    /// The host counter of the last record.
    pub(crate) h: u64,
    /// How many records were made.
    pub(crate) made: u64,
}

impl Draws {
    ghost use Rattle.trace_gen.specs.Draws.{at_key, drawn};

    /// Before the first record.
    pub(crate) fn new(key: u64) -> Draws
        ensures { result ≡ at_key key }
    {
        Draws {
            state: key,
            h: 0,
            made: 0,
        }
    }

    /// Goes on to the next record.
    pub(crate) fn draw(&mut self)
        requires h { self.old.h + 100000 ≤ 2 ^ 63 }
        requires made { self.old.made < 2 ^ 63 }
        ensures value { self.new ≡ drawn self.old }
        ensures made { self.new.made ≡ self.old.made + 1 }
        ensures h { self.new.h < self.old.h + 100000 }
    {
        let state = next_state(self.state);
        self.h += value_of(state) % SPREAD;
        self.made += 1;
        self.state = state;
    }

    /// The kind of the record.
    pub(crate) fn kind(&self) -> u64
        ensures value { result ≡ kind_of self.now.state }
        ensures small { result < 16 }
    {
        value_of(self.state) / SPREAD % KINDS
    }

    /// The byte that it writes, if it writes one.
    pub(crate) fn byte(&self) -> u8
        ensures { result ≡ byte_of self.now.state }
    {
        (value_of(self.state) / (SPREAD * KINDS) % 256) as u8
    }
}

/// The number after another.
#[tactic(auto, unfolding(crate::specs::Draws::next_state))]
fn next_state(state: u64) -> u64
    ensures { result ≡ next_state state }
{
    state.wrapping_mul(MULTIPLIER).wrapping_add(INCREMENT)
}

/// What of a number is used: its upper 31 bits.
fn value_of(state: u64) -> u64
    ensures value { result ≡ value_of state }
    ensures small { result < 2 ^ 31 }
{
    state >> 33
}
