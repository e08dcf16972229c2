//! A trace as it is read: one thread puts it piece by piece, and others take it.
ghost use Rattle.std.specs.Prelude.{◌≡◌, IfOk, map, slice_index_or};
ghost use Rattle.std.specs.Bool.{OnTrue};
ghost use Rattle.race_phase.specs.Parts.{id_of, part_at};

use crate::halt::Halt;
use crate::opening::Opening;
use crate::piece::Piece;
use clk_units::NoMemory;
use std::alloc::Global;
use std::marker::{Brand, Model, PhantomData};
use std::sync::{OnceLock, OnceToken, Wait};

/// How many pieces there is room for: a trace has fewer.
const MOST_PIECES: usize = 256;

/// Shows contracts which places a value was put into or taken from. It has no method that runs. A program makes a
/// [`Row`], and passes it to a function of its own over `F: Feeding`, which it calls at the marker type
/// `std::marker::Brand`; the call picks the places.
pub trait Feeding {
    ghost use Rattle.std.specs.Prelude.{ℕ, List};

    ghost opening: { ℕ };

    ghost pieces: { List ℕ };
}

impl Feeding for Brand {
    ghost use Rattle.std.specs.Prelude.{[]};

    ghost opening = { 0 };

    ghost pieces = { [] };
}

/// Places that nothing was put into.
#[derive(Drop)]
pub struct Row {
    pub(crate) opening: OnceLock<Option<Opening>>,
    pub(crate) pieces: Vec<OnceLock<Piece>>,
}

impl Row {
    /// A place for the opening, and places for the pieces.
    pub fn new(alloc: Global) -> Result<Row, NoMemory> {
        let Ok(mut pieces) = Vec::with_capacity(alloc, MOST_PIECES) else {
            return Err(NoMemory);
        };
        for _ in 0..MOST_PIECES {
            let Ok(()) = pieces.push(OnceLock::new()) else {
                return Err(NoMemory);
            };
        }
        Ok(Row {
            opening: OnceLock::new(),
            pieces,
        })
    }
}

/// Places for a trace: one for what it begins with, and a row of them for its pieces. Each is written once.
#[derive(Drop)]
pub struct Feed<F: Feeding> {
    opening: OnceLock<Option<Opening>>,
    pieces: Vec<OnceLock<Piece>>,
    marker: PhantomData<F>,
    ghost first: { opening.id ≡ F.opening },
    ghost row: { map id_of pieces.items ≡ F.pieces },
}

/// What shows the opening.
#[derive(Drop)]
pub struct Opened<'a, F: Feeding> {
    token: OnceToken<'a, Option<Opening>>,
    marker: PhantomData<F>,
}

impl<'a, F: Feeding> Model for Opened<'a, F> {
    ghost use Rattle.std.specs.Prelude.{◌≡◌, Option};
    ghost use Rattle.race_phase.specs.declared.opening.Opening.{Opening};

    ghost Value = { Option Opening };

    ghost view = { λ o. o.token.value };

    ghost invariant = { λ o. o.token.of ≡ F.opening };
}

/// What shows a piece.
#[derive(Drop)]
pub struct Shown<'a, F: Feeding> {
    at: usize,
    token: OnceToken<'a, Piece>,
    marker: PhantomData<F>,
}

impl<'a, F: Feeding> Model for Shown<'a, F> {
    ghost use Rattle.std.specs.Prelude.{◌≡◌, slice_index_or};
    ghost use Rattle.race_phase.specs.Parts.{ShownPiece};

    ghost Value = { ShownPiece };

    ghost view = { λ s. record { at = s.at; piece = s.token.value } };

    ghost invariant = { λ s. s.token.of ≡ slice_index_or F.pieces s.at 0 };
}

/// What shows a part of a piece.
#[derive(Drop)]
pub struct Taken<'a, F: Feeding> {
    shown: Shown<'a, F>,
    part: usize,
}

impl<'a, F: Feeding> Model for Taken<'a, F> {
    ghost use Rattle.race_phase.specs.declared.piece.Part.{Part};
    ghost use Rattle.race_phase.specs.Parts.{part_at};

    ghost Value = { Part };

    ghost view = { λ t. part_at t.shown.piece t.part };
}

/// Where a part is: its piece, and which part of the piece it is.
#[derive(Clone, Copy)]
pub(crate) struct Spot {
    pub(crate) piece: usize,
    pub(crate) part: usize,
}

impl<F: Feeding> Feed<F> {
    /// The places of a row.
    pub fn new(row: Row) -> Feed<F>
        requires first { row.opening.id ≡ F.opening }
        requires row { map id_of row.pieces.items ≡ F.pieces }
    {
        let Row { opening, pieces } = row;
        Feed {
            opening,
            pieces,
            marker: PhantomData,
        }
    }

    /// Puts the opening, or that there is none.
    pub(crate) fn open(&self, opening: Option<Opening>) -> Result<Opened<'_, F>, NoMemory>
        ensures { IfOk result (λ o. o ≡ opening) }
    {
        match self.opening.try_set(opening) {
            Ok(token) => Ok(Opened {
                token,
                marker: PhantomData,
            }),
            Err(_) => Err(NoMemory),
        }
    }

    /// Puts a piece.
    pub(crate) fn put(&self, at: usize, piece: Piece) -> Result<Shown<'_, F>, NoMemory>
        ensures { IfOk result (λ s. s ≡ record { at = at; piece = piece }) }
    {
        let Some(cell) = self.pieces.get(at) else {
            return Err(NoMemory);
        };
        match cell.try_set(piece) {
            Ok(token) => Ok(Shown {
                at,
                token,
                marker: PhantomData,
            }),
            Err(_) => Err(NoMemory),
        }
    }

    /// Waits for the opening.
    pub(crate) fn opened<R: Wait>(&self, rt: &R) -> Result<Opened<'_, F>, Halt> {
        let _ = self.opening.wait(rt);
        match self.opening.witness() {
            Some(token) => Ok(Opened {
                token,
                marker: PhantomData,
            }),
            None => Err(Halt::Closed),
        }
    }

    /// The opening, where there is one.
    pub(crate) fn opening<'a>(&'a self, opened: &Opened<'a, F>) -> &'a Option<Opening>
        ensures { result.now ≡ opened.now }
    {
        self.opening.value(&opened.token)
    }

    /// Waits for a piece, and gives it with what shows it.
    pub(crate) fn take<'a, R: Wait>(
        &'a self,
        rt: &R,
        at: usize,
    ) -> Result<(Shown<'a, F>, &'a Piece), Halt>
        ensures { IfOk result (λ t. t.1.now ≡ t.0.piece) }
    {
        let Some(cell) = self.pieces.get(at) else {
            return Err(Halt::Closed);
        };
        let _ = cell.wait(rt);
        match cell.witness() {
            Some(token) => {
                let piece = cell.value(&token);
                let shown = Shown {
                    at,
                    token,
                    marker: PhantomData,
                };
                Ok((shown, piece))
            }
            None => Err(Halt::Closed),
        }
    }
}

impl<'a, F: Feeding> Shown<'a, F> {
    /// The same once more.
    pub(crate) fn again(&self) -> Shown<'a, F>
        ensures { result ≡ self.now }
    {
        Shown {
            at: self.at,
            token: self.token.again(),
            marker: PhantomData,
        }
    }

    /// Whether another shows the same place, and so the same piece.
    pub(crate) fn agrees(&self, other: &Shown<'a, F>) -> bool
        ensures { OnTrue result (self.now.piece ≡ other.now.piece) }
    {
        if self.at != other.at {
            return false;
        }
        self.token.agrees(&other.token);
        true
    }
}

impl<'a, F: Feeding> Opened<'a, F> {
    /// Another shows the same opening.
    pub(crate) fn agrees(&self, other: &Opened<'a, F>)
        ensures { self.now ≡ other.now }
    {
        self.token.agrees(&other.token);
    }
}

impl<'a, F: Feeding> Taken<'a, F> {
    /// A part of a piece.
    pub(crate) fn of(shown: Shown<'a, F>, part: usize) -> Taken<'a, F>
        ensures { result ≡ part_at shown.entry.piece part }
    {
        Taken { shown, part }
    }

    /// Whether another is of the same part.
    pub(crate) fn agrees(&self, other: &Taken<'a, F>) -> bool
        ensures { OnTrue result (self.now ≡ other.now) }
    {
        self.part == other.part && self.shown.agrees(&other.shown)
    }
}

/// Whether two rows of parts are the same.
pub(crate) fn agree<'a, F: Feeding>(some: &Vec<Taken<'a, F>>, others: &Vec<Taken<'a, F>>) -> bool
    ensures { OnTrue result (some.now.items ≡ others.now.items) }
{
    if some.len() != others.len() {
        return false;
    }
    for at in 0..some.len() {
        if !some[at].agrees(&others[at]) {
            return false;
        }
    }
    true
}
