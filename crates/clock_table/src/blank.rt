//! The words of a state, before a table has its name.
ghost use Rattle.std.specs.Prelude.{◌≡◌, ◌+◌, ◌*◌, IfOk};
ghost use Rattle.board_core.specs.Conditions.{IsJoined};
ghost use Rattle.clock_table.specs.Words.{pages_for};
ghost use Rattle.clock_table.specs.private.Laid.{IsLaidBelow};

use crate::table::{APART, CLAMP, PAGES, Words};
use crate::view::View;
use atomic_table::Seat;
use board_core::{BoardParts, BoardState};
use board_history::table_page;
use clk_units::NoMemory;
use pvclock_page::page_words;
use std::alloc::Global;
use std::marker::Model;

/// The words of a table that has no name yet. Contracts see of it which table it is, and the state.
#[derive(Drop)]
pub struct Blank {
    pub(crate) table: Words,
    pub(crate) seat: Seat<(), View>,
}

impl Model for Blank {
    ghost use Rattle.std.specs.Prelude.{◌≡◌, ◌+◌, ◌*◌, []};
    ghost use Rattle.atomic_table.specs.Seated.{TableId};
    ghost use Rattle.board_types.specs.declared.parts.BoardParts.{BoardParts};
    ghost use Rattle.clock_table.specs.Steps.{first_view};
    ghost use Rattle.clock_table.specs.Words.{pages_for, words_for};

    ghost Value = { TableId × BoardParts };

    ghost view = { λ b. (b.table.shared.table_id, b.table.shared.key) };

    ghost invariant = { λ b. (b.table.shared.table_id.words
        ≡ words_for (pages_for b.table.shared.key.cpus))
        × (b.table.shared.table_id.slots ≡ 0) × (b.seat.table_id ≡ b.table.shared.table_id)
        × (b.seat.me ≡ (first_view b.table.shared.key, [])) };
}

impl Blank {
    /// Takes the memory of the words, and sets them to the pages and the greatest reading of a state, the front
    /// word to 0.
    pub fn new(alloc: Global, state: &BoardState) -> Result<Blank, NoMemory>
        ensures state { IfOk result (λ b. b.1 ≡ state.now) }
        ensures joined { IsJoined state.now }
    {
        let _processors = state.processors();
        state.joined();
        let words = laid(alloc, state)?;
        match Words::of_words(alloc, &words, state) {
            Ok((table, seat)) => Ok(Blank { table, seat }),
            Err(_full) => Err(NoMemory),
        }
    }
}

/// The words of a state: the front word, the clamp word, and those of each page.
fn laid(alloc: Global, state: &BoardState) -> Result<Vec<u64>, NoMemory>
    ensures { IfOk result (λ ws. IsLaidBelow (5 * pages_for state.now.cpus) state.now ws.items) }
{
    let pages = state.cpus() as usize + 1;
    let Ok(mut words) = vec![in alloc; 0; PAGES + APART * pages] else {
        return Err(NoMemory);
    };
    words[CLAMP] = state.greatest();
    for page in 0..pages {
        let [version, stamp, system, scale, offset] = page_words(&table_page(state, page as u8));
        let at = PAGES + APART * page;
        words[at] = version;
        words[at + 1] = stamp;
        words[at + 2] = system;
        words[at + 3] = scale;
        words[at + 4] = offset;
    }
    Ok(words)
}
