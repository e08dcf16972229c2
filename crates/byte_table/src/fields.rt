//! Fields of bytes, read one after another: the place moves on by itself.
ghost use Rattle.std.specs.Prelude.{◌≡◌, ◌<◌, ◌^◌};
ghost use Rattle.byte_table.specs.Codes.{byte_at, number_at, flag_at};
ghost use Rattle.byte_table.specs.Reading.{IsPast};

use crate::numbers::{byte_at, eight_at, flag_at, four_at, two_at};

/// Bytes, and the place of the field that is read next. A byte after the end counts as 0.
#[derive(Drop)]
pub struct Fields<'a> {
    pub bytes: &'a [u8],
    pub place: usize,
}

impl<'a> Fields<'a> {
    /// The fields from the first byte on.
    pub fn new(bytes: &'a [u8]) -> Fields<'a>
        ensures bytes { result.bytes.now ≡ bytes.now }
        ensures place { result.place ≡ 0 }
    {
        Fields { bytes, place: 0 }
    }

    /// A byte.
    pub fn byte(&mut self) -> u8
        requires { self.old.place < 2 ^ 60 }
        ensures value { result ≡ byte_at self.old.place self.old.bytes.now }
        ensures next { IsPast 1 self.old self.new }
    {
        let place = self.place;
        self.place += 1;
        byte_at(self.bytes, place)
    }

    /// A flag in its byte.
    pub fn flag(&mut self) -> bool
        requires { self.old.place < 2 ^ 60 }
        ensures value { result ≡ flag_at self.old.place self.old.bytes.now }
        ensures next { IsPast 1 self.old self.new }
    {
        let place = self.place;
        self.place += 1;
        flag_at(self.bytes, place)
    }

    /// A number of 2 bytes.
    pub fn two(&mut self) -> u16
        requires { self.old.place < 2 ^ 60 }
        ensures value { result ≡ number_at 2 self.old.place self.old.bytes.now }
        ensures next { IsPast 2 self.old self.new }
    {
        let place = self.place;
        self.place += 2;
        two_at(self.bytes, place)
    }

    /// A number of 4 bytes.
    pub fn four(&mut self) -> u32
        requires { self.old.place < 2 ^ 60 }
        ensures value { result ≡ number_at 4 self.old.place self.old.bytes.now }
        ensures next { IsPast 4 self.old self.new }
    {
        let place = self.place;
        self.place += 4;
        four_at(self.bytes, place)
    }

    /// A number of 8 bytes.
    pub fn eight(&mut self) -> u64
        requires { self.old.place < 2 ^ 60 }
        ensures value { result ≡ number_at 8 self.old.place self.old.bytes.now }
        ensures next { IsPast 8 self.old self.new }
    {
        let place = self.place;
        self.place += 8;
        eight_at(self.bytes, place)
    }
}
