//! A whole trace in a feed.
ghost use Rattle.std.specs.Prelude.{◌≡◌};
ghost use Rattle.std.specs.Bool.{OnTrue};

use crate::feed::{Feeding, Opened, Taken, agree};
use std::marker::Model;

/// A whole trace in a feed: its opening and its parts.
#[derive(Drop)]
pub struct Written<'a, F: Feeding> {
    pub(crate) opened: Opened<'a, F>,
    pub(crate) put: Vec<Taken<'a, F>>,
}

impl<'a, F: Feeding> Model for Written<'a, F> {
    ghost use Rattle.std.specs.Prelude.{[]};
    ghost use Rattle.race_phase.specs.Parts.{WrittenTrace, phases_in};

    ghost Value = { WrittenTrace };

    ghost view = { λ w. record {
      opened = w.opened;
      phases = phases_in [] w.put.items;
    } };
}

impl<'a, F: Feeding> Written<'a, F> {
    /// Whether another is the same trace of the same feed.
    pub fn agrees(&self, other: &Written<'a, F>) -> bool
        ensures { OnTrue result (self.now ≡ other.now) }
    {
        self.opened.agrees(&other.opened);
        agree(&self.put, &other.put)
    }
}
