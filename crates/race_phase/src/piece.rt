//! A piece of a trace.
ghost use Rattle.std.specs.Prelude.{◌≡◌, All, IfSome, length};
ghost use Rattle.race_phase.specs.Parts.{IsPart, part_at};

use crate::records::RecordList;
use std::marker::Model;
use trace_blocks::End;

/// How many records a part has at most.
pub(crate) const PART_LEN: usize = 2_048;

/// Records of a phase in file order, and what ends it, where they are its last ones.
#[derive(Drop)]
pub struct Part {
    pub(crate) records: RecordList,
    pub(crate) end: Option<End>,
}

/// Parts of a trace that follow one another. A piece without parts closes the feed.
#[derive(Drop)]
pub struct Piece {
    cpus: u8,
    format: u8,
    parts: Vec<Part>,
}

impl Model for Piece {
    ghost use Rattle.std.specs.Prelude.{All};
    ghost use Rattle.race_phase.specs.Parts.{PieceParts, IsPart};

    ghost Value = { PieceParts };

    ghost view = { λ p. record { cpus = p.cpus; format = p.format; parts = p.parts.items } };

    ghost invariant = { λ p. All (IsPart p.cpus p.format) p.parts.items };
}

impl Piece {
    /// Parts that fit boards of so many processors and this format.
    pub(crate) fn new(cpus: u8, format: u8, parts: Vec<Part>) -> Piece
        requires { All (IsPart cpus format) parts.items }
        ensures { result ≡ record { cpus = cpus; format = format; parts = parts.items } }
    {
        Piece {
            cpus,
            format,
            parts,
        }
    }

    /// How many processors the boards have that it fits.
    pub(crate) fn cpus(&self) -> u8
        ensures { result ≡ self.now.cpus }
    {
        self.cpus
    }

    /// The format of the boards that it fits.
    pub(crate) fn format(&self) -> u8
        ensures { result ≡ self.now.format }
    {
        self.format
    }

    /// How many parts there are.
    pub(crate) fn len(&self) -> usize
        ensures { result ≡ length self.now.parts }
    {
        self.parts.len()
    }

    /// A part.
    pub(crate) fn part(&self, index: usize) -> Option<&Part>
        ensures part { IfSome result (λ p. part_at self.now index ≡ p.now) }
        ensures fits { IfSome result (λ p. IsPart self.now.cpus self.now.format p.now) }
    {
        self.parts.get(index)
    }
}
