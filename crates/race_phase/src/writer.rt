//! What puts a trace into a feed.
ghost use Rattle.std.specs.Prelude.{◌≡◌, ◌++◌, [], ◌∷◌, IfOk, IfSome, OnOk, OnErr, IsErr, Some, None, length};
ghost use Rattle.race_phase.specs.Calls.{IsFitting};
ghost use Rattle.race_phase.specs.Parts.{emptied, phase_by, left_open};
ghost use Rattle.trace_blocks.specs.Ends.{IsEnd};

use crate::feed::{Feed, Feeding, Opened, Shown, Taken};
use crate::opening::Opening;
use crate::piece::{PART_LEN, Part, Piece};
use crate::records::RecordList;
use crate::written::Written;
use board_core::BoardState;
use clk_units::NoMemory;
use std::alloc::Global;
use std::marker::Model;
use std::mem;
use trace_blocks::{Deliveries, End, Record};

/// With so many entries, one more is as many as a piece has.
const LAST_ENTRY: usize = PART_LEN - 1;

/// Puts the records of a trace into a feed, in file order, many at a time.
#[derive(Drop)]
pub struct Writer<'a, F: Feeding> {
    feed: &'a Feed<F>,
    alloc: Global,
    cpus: u8,
    format: u8,
    opened: Option<Opened<'a, F>>,
    /// The parts that were put, in so many pieces.
    put: Vec<Taken<'a, F>>,
    pieces: usize,
    /// The phases that ended since that, and the records after the last of them.
    parts: Vec<Part>,
    waiting: RecordList,
    /// How many records and ends there are in both.
    entries: usize,
}

impl<'a, F: Feeding> Model for Writer<'a, F> {
    ghost use Rattle.std.specs.Prelude.{◌++◌, [], All};
    ghost use Rattle.race_phase.specs.Calls.{IsFitting};
    ghost use Rattle.race_phase.specs.Parts.{IsPart, WriterParts, phases_in, open_in};

    ghost Value = { WriterParts };

    ghost view = { λ w. record {
      cpus = w.cpus;
      format = w.format;
      opened = w.opened;
      phases = phases_in [] (w.put.items ++ w.parts.items);
      last = open_in [] (w.put.items ++ w.parts.items) ++ w.waiting;
    } };

    ghost invariant = { λ w. All (IsPart w.cpus w.format) w.parts.items
        × All (IsFitting w.cpus w.format) w.waiting };
}

impl<'a, F: Feeding> Writer<'a, F> {
    /// Nothing was put yet. The records are to fit boards of so many processors and this format.
    pub fn new(alloc: Global, feed: &'a Feed<F>, cpus: u8, format: u8) -> Writer<'a, F>
        ensures { result ≡ record {
          cpus = cpus;
          format = format;
          opened = None;
          phases = [];
          last = [];
        } }
    {
        Writer {
            feed,
            alloc,
            cpus,
            format,
            opened: None,
            put: Vec::new(alloc),
            pieces: 0,
            parts: Vec::new(alloc),
            waiting: RecordList::new(alloc),
            entries: 0,
        }
    }

    /// Puts the opening, before any record.
    pub fn open(&mut self, state: &BoardState, deliveries: &Deliveries) -> Result<(), NoMemory>
        ensures err { OnErr result (self.new ≡ self.old) }
        ensures ok { OnOk result (self.new ≡ record {
          cpus = state.now.cpus;
          format = state.now.format;
          opened = Some (Some (record { state = state.now; deliveries = deliveries.now }));
          phases = [];
          last = [];
        }) }
    {
        if !self.put.is_empty() || !self.parts.is_empty() || self.waiting.len() > 0 {
            return Err(NoMemory);
        }
        let opening = Opening {
            state: *state,
            deliveries: *deliveries,
        };
        let opened = self.feed.open(Some(opening))?;
        self.cpus = state.cpus();
        self.format = state.format();
        self.opened = Some(opened);
        Ok(())
    }

    /// A record more. After an `Err` the writer is as before its first record.
    #[inline(always)]
    pub fn push(&mut self, given: &Record) -> Result<(), NoMemory>
        requires { IsFitting self.old.cpus self.old.format given.now }
        ensures ok { OnOk result (self.new
            ≡ record self.old { last = self.old.last ++ given.now ∷ [] }) }
        ensures err { OnErr result (self.new ≡ emptied self.old) }
    {
        let Ok(()) = self.waiting.push(given) else {
            return self.lose();
        };
        if self.entries >= LAST_ENTRY {
            return self.flush();
        }
        self.entries += 1;
        Ok(())
    }

    /// A phase ends. The last one is put at once. After an `Err` the writer is as before its first record.
    pub fn end(&mut self, end: End) -> Result<(), NoMemory>
        requires { IsEnd self.old.cpus end }
        ensures ok { OnOk result (self.new ≡ record self.old {
          phases = self.old.phases ++ record { records = self.old.last; end = end } ∷ [];
          last = [];
        }) }
        ensures err { OnErr result (self.new ≡ emptied self.old) }
    {
        let Ok(()) = self.close_part(Some(end)) else {
            return self.lose();
        };
        if self.entries >= LAST_ENTRY || end == End::Finish {
            return self.put_piece();
        }
        self.entries = self.entries.saturating_add(1);
        Ok(())
    }

    /// Forgets what was put, where there is no memory for more.
    #[cold]
    #[inline(never)]
    fn lose(&mut self) -> Result<(), NoMemory>
        ensures err { IsErr result }
        ensures after { self.new ≡ emptied self.old }
    {
        self.opened = None;
        self.put.clear();
        self.parts.clear();
        self.waiting = RecordList::new(self.alloc);
        self.entries = 0;
        Err(NoMemory)
    }

    /// Puts what waits.
    #[cold]
    #[inline(never)]
    fn flush(&mut self) -> Result<(), NoMemory>
        ensures ok { OnOk result (self.new ≡ self.old) }
        ensures err { OnErr result (self.new ≡ emptied self.old) }
    {
        let Ok(()) = self.close_part(None) else {
            return self.lose();
        };
        self.put_piece()
    }

    /// The records that wait become a part. They are never more than a part may have.
    fn close_part(&mut self, end: Option<End>) -> Result<(), NoMemory>
        requires { IfSome end (IsEnd self.old.cpus) }
        ensures ok { OnOk result (self.new ≡ record self.old {
          phases = self.old.phases ++ phase_by end self.old.last;
          last = left_open end self.old.last;
        }) }
        ensures size { (self.new.cpus ≡ self.old.cpus) × (self.new.format ≡ self.old.format) }
    {
        let none = RecordList::new(self.alloc);
        let records = mem::replace(&mut self.waiting, none);
        if records.len() > PART_LEN {
            return Err(NoMemory);
        }
        let Ok(()) = self.parts.push(Part { records, end }) else {
            return Err(NoMemory);
        };
        Ok(())
    }

    /// Puts the parts.
    fn put_piece(&mut self) -> Result<(), NoMemory>
        ensures ok { OnOk result (self.new ≡ self.old) }
        ensures err { OnErr result (self.new ≡ emptied self.old) }
    {
        let parts = mem::replace(&mut self.parts, Vec::new(self.alloc));
        let count = parts.len();
        let piece = Piece::new(self.cpus, self.format, parts);
        let Ok(shown) = self.feed.put(self.pieces, piece) else {
            return self.lose();
        };
        // Also where there is no memory below: `close` puts the next piece.
        self.pieces = self.pieces.saturating_add(1);
        let Ok(()) = put_parts(&shown, count, &mut self.put) else {
            return self.lose();
        };
        self.entries = 0;
        Ok(())
    }

    /// The trace, where it was put whole. The writer is then as before its first record.
    pub fn written(&mut self) -> Result<Written<'a, F>, NoMemory>
        ensures opened { IfOk result (λ w. self.old.opened ≡ Some w.opened) }
        ensures phases { IfOk result (λ w. w.phases ≡ self.old.phases) }
        ensures after { self.new ≡ emptied self.old }
    {
        let put = mem::replace(&mut self.put, Vec::new(self.alloc));
        let is_whole = self.parts.is_empty();
        let opened = self.opened.take();
        self.parts.clear();
        self.waiting = RecordList::new(self.alloc);
        self.entries = 0;
        if !is_whole {
            return Err(NoMemory);
        }
        match opened {
            Some(opened) => Ok(Written { opened, put }),
            None => Err(NoMemory),
        }
    }

    /// Closes the feed: what waits for more stops.
    // After a whole trace nobody takes the last piece. It is put all the same: it asks for no memory, and however the reading
    // ended no worker waits for ever.
    pub fn close(&mut self) {
        let _ = self.feed.open(None);
        let closing = Piece::new(0, 0, Vec::new(self.alloc));
        let _ = self.feed.put(self.pieces, closing);
    }
}

/// Puts the first parts of a piece behind others.
fn put_parts<'a, F: Feeding>(
    shown: &Shown<'a, F>,
    count: usize,
    put: &mut Vec<Taken<'a, F>>,
) -> Result<(), NoMemory>
    requires { count ≡ length shown.now.piece.parts }
    ensures { OnOk result (put.new.items ≡ put.old.items ++ shown.now.piece.parts) }
{
    for part in 0..count {
        let Ok(()) = put.push(Taken::of(shown.again(), part)) else {
            return Err(NoMemory);
        };
    }
    Ok(())
}
