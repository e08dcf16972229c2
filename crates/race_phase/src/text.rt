//! A text in pieces, so that none that is long is copied.
ghost use Rattle.std.specs.Prelude.{◌≡◌, ◌++◌, [], OnOk, OnErr};
ghost use Rattle.std.specs.List.{flat_map};
ghost use Rattle.std.specs.Vec.{vec_items};

use clk_units::NoMemory;
use std::alloc::Global;
use std::marker::Model;

/// A text up to this length is put onto the piece before it, where that is as short: so many short texts make few
/// pieces, and no long one is copied.
pub const SHORT: usize = 16 * 1024;

/// A text in pieces, one after another.
#[derive(Drop)]
pub struct Text {
    pieces: Vec<Vec<u8>>,
}

impl Model for Text {
    ghost use Rattle.std.specs.Prelude.{ℕ, List};
    ghost use Rattle.std.specs.List.{flat_map};
    ghost use Rattle.std.specs.Vec.{vec_items};

    ghost Value = { List ℕ };

    ghost view = { λ t. flat_map vec_items t.pieces.items };
}

impl Text {
    /// The empty text.
    pub fn new(alloc: Global) -> Text
        ensures { result ≡ [] }
    {
        Text {
            pieces: Vec::new(alloc),
        }
    }

    /// The pieces, in their order.
    pub fn pieces(&self) -> &[Vec<u8>]
        ensures { flat_map vec_items result.now ≡ self.now }
    {
        self.pieces.as_slice()
    }

    /// Appends a text. After an `Err` the text is as it was.
    pub fn append(&mut self, more: Vec<u8>) -> Result<(), NoMemory>
        ensures ok { OnOk result (self.new ≡ self.old ++ more.items) }
        ensures err { OnErr result (self.new ≡ self.old) }
    {
        if more.is_empty() {
            return Ok(());
        }
        match self.pieces.last_mut() {
            Some(last) if last.len().max(more.len()) <= SHORT => {
                last.extend_from_slice(&more).map_err(|_| NoMemory)
            }
            _ => self.pieces.push(more).map_err(|_| NoMemory),
        }
    }

    /// Appends the pieces of another text.
    pub(crate) fn join(&mut self, more: Text) -> Result<(), NoMemory>
        ensures { OnOk result (self.new ≡ self.old ++ more) }
    {
        for piece in more.pieces {
            self.append(piece)?;
        }
        Ok(())
    }
}
