//! The end of a table.
ghost use Rattle.std.specs.Prelude.{◌≡◌, ◌<◌, ◌≤◌, ◌+◌, ◌*◌, ℕ, [], slice_index_or};
ghost use Rattle.std.specs.Slots.{slots_items, slots_len, IsFull};
ghost use Rattle.pvclock_page.specs.Words.{page_of};
ghost use Rattle.board_history.specs.Machine.{page_at};
ghost use Rattle.board_history.specs.History.{board_after, entries_of, IsLegal, Opens};
ghost use Rattle.clock_table.specs.Words.{words_for};
ghost use Rattle.clock_table.specs.Steps.{loud};
ghost use Rattle.clock_table.specs.Ends.{IsWhole, EndedTold, no_page};
ghost use Rattle.clock_table.specs.private.Laid.{words_at};

use crate::name::Name;
use crate::table::{APART, CLAMP, ClockSeat, ClockTable, PAGES};
use atomic_table::Closed as ClosedWords;
use pvclock_page::{Page, words_page};
use std::alloc::Global;

/// How many pages a table has at most: those of 64 processors, and the reference page.
pub const MOST_PAGES: usize = 65;

/// What the place of a page that isn't there holds.
const NO_PAGE: Page = Page {
    version: 0,
    tsc_timestamp: 0,
    system_time: 0,
    mul: 0,
    shift: 0,
    flags: 0,
    offset: 0,
    enabled: false,
};

/// What a table held at its end: the front word, the greatest reading, and the pages; 0 in the places after them.
#[derive(Debug, Drop, PartialEq, Eq)]
pub struct Closed {
    pub front: u64,
    pub greatest: u64,
    /// Those of the processors, and after them the reference page.
    pub pages: [Page; MOST_PAGES],
}

impl<N: Name> ClockTable<N> {
    /// Takes the table apart, with the seat that all passes have joined. What this seat has seen is then the whole
    /// history.
    pub fn close(self, seat: ClockSeat<N>) -> Closed
        requires { IsWhole N.passes seat }
        ensures legal { IsLegal seat.seen × Opens N.state seat.seen }
        ensures front { result.front ≡ loud seat.seen }
        ensures greatest { result.greatest ≡ (board_after seat.seen).greatest }
        ensures pages { (page : ℕ) → page ≤ N.state.cpus → page < MOST_PAGES →
            slice_index_or result.pages page no_page ≡ page_at (board_after seat.seen) page }
        ensures no_pages { (page : ℕ) → N.state.cpus < page →
            slice_index_or result.pages page no_page ≡ no_page }
        ensures ended { EndedTold seat.seen seat.ended }
        ensures numbers { (n : ℕ) → N.passes ≤ n → entries_of n seat.seen ≡ [] }
    {
        let ClockTable { table, of: _ } = self;
        let ClockSeat { seat, of: _ } = seat;
        let count = table.word_count();
        let words = table.close_with(seat);
        let front = words.word(0);
        let greatest = words.word(CLAMP);
        let pages = pages_of(&words, count);
        words.free();
        Closed {
            front,
            greatest,
            pages,
        }
    }
}

/// The pages that are in the words.
fn pages_of(words: &ClosedWords<(), Global>, count: usize) -> [Page; MOST_PAGES]
    requires full { IsFull words.now.words }
    requires count { slots_len words.now.words ≡ count }
    ensures pages { (page : ℕ) → words_for (page + 1) ≤ count → page < MOST_PAGES →
        slice_index_or result page no_page ≡ page_of (words_at (slots_items words.now.words) page) }
    ensures no_pages { (page : ℕ) → count < words_for (page + 1) →
        slice_index_or result page no_page ≡ no_page }
{
    let mut pages = [NO_PAGE; MOST_PAGES];
    for page in 0..MOST_PAGES {
        if PAGES + APART * page + APART <= count {
            pages[page] = page_at(words, page);
        }
    }
    pages
}

/// The page at this place.
fn page_at(words: &ClosedWords<(), Global>, page: usize) -> Page
    requires full { IsFull words.now.words }
    requires there { words_for (page + 1) ≤ slots_len words.now.words }
    requires few { page < MOST_PAGES }
    ensures { result ≡ page_of (words_at (slots_items words.now.words) page) }
{
    let at = PAGES + APART * page;
    words_page(&[
        words.word(at),
        words.word(at + 1),
        words.word(at + 2),
        words.word(at + 3),
        words.word(at + 4),
    ])
}
