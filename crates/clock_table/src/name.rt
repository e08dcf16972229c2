//! What shows contracts which table, and which entry, a value or a step belongs to.
use std::marker::Brand;

/// Which table, which opening state and which number of passes. It has no method that runs. All tables, seats,
/// passes and boards of one `N: Name` agree on the three, also where a lock is between them. A program makes a
/// `Blank`, and passes it to a function of its own over `N: Name`, which it calls at the marker type
/// `std::marker::Brand`; the call picks the three.
pub trait Name {
    ghost use Rattle.std.specs.Prelude.{ℕ};
    ghost use Rattle.atomic_table.specs.Seated.{TableId};
    ghost use Rattle.board_types.specs.declared.parts.BoardParts.{BoardParts};

    ghost table: { TableId };

    ghost state: { BoardParts };

    ghost passes: { ℕ };
}

impl Name for Brand {
    ghost use Rattle.clock_table.specs.Words.{no_table};
    ghost use Rattle.board_history.specs.Machine.{no_board};

    ghost table = { no_table };

    ghost state = { no_board };

    ghost passes = { 0 };
}

/// Which entry a step is to make. The call that makes it picks it.
pub trait Ask {
    ghost use Rattle.board_history.specs.declared.entry.Entry.{Entry};

    ghost entry: { Entry };
}

impl Ask for Brand {
    ghost use Rattle.clock_table.specs.private.Plays.{no_entry};

    ghost entry = { no_entry };
}

/// A number that goes into the entry: a count of the host's counter, a processor, or a reading of the clock.
pub trait Tag {
    ghost use Rattle.std.specs.Prelude.{ℕ};

    ghost tag: { ℕ };
}

impl Tag for Brand {
    ghost tag = { 0 };
}
