//! The rule, and the kinds of step.
use crate::name::{Ask, Name, Tag};
use crate::view::View;
use atomic_table::{Join, Play, Split, TableRule};
use board_core::BoardState;
use std::marker::PhantomData;

/// The rule of the words.
pub struct ClockRule;

impl TableRule<(), View, BoardState> for ClockRule {
    ghost use Rattle.clock_table.specs.private.Rule.{Kept};
    ghost use Rattle.clock_table.specs.Steps.{first_view};

    ghost holds = { Kept };

    ghost first = { first_view };
}

/// The pen's holder adds 1 to an even version: the page is open.
pub struct Begins;

impl Play<(), View> for Begins {
    ghost use Rattle.clock_table.specs.private.Plays.{Begun};

    ghost then = { Begun };
}

/// It stores a field of the open page.
pub struct Puts;

impl Play<(), View> for Puts {
    ghost use Rattle.clock_table.specs.private.Plays.{PutIn};

    ghost then = { PutIn };
}

/// It adds 1 to the odd version or to the front word, or loads the front word, and so makes an entry.
pub struct Finishes<E> {
    of: PhantomData<E>,
}

impl<E: Ask> Play<(), View> for Finishes<E> {
    ghost use Rattle.clock_table.specs.private.Plays.{Finished};

    ghost then = { Finished E.entry };
}

/// A load of a version, with which a read begins.
pub struct Firsts;

impl Play<(), View> for Firsts {
    ghost use Rattle.clock_table.specs.private.Plays.{FirstRead};

    ghost then = { FirstRead };
}

/// A load of a field.
pub struct Fields;

impl Play<(), View> for Fields {
    ghost use Rattle.clock_table.specs.private.Plays.{FieldRead};

    ghost then = { FieldRead };
}

/// A load of the version again: the entry of a read, or a miss.
pub struct Seconds<N, E> {
    of: PhantomData<(N, E)>,
}

impl<N: Name, E: Tag> Play<(), View> for Seconds<N, E> {
    ghost use Rattle.clock_table.specs.private.Plays.{SecondRead};

    ghost then = { SecondRead N.state.cpus E.tag };
}

/// A new pass is split off.
pub struct NewPass;

impl Split<View> for NewPass {
    ghost use Rattle.clock_table.specs.Steps.{pass_left, pass_right};

    ghost left = { pass_left };

    ghost right = { pass_right };
}

/// The first seat learns how many passes there may be.
pub struct Names<N> {
    of: PhantomData<N>,
}

impl<N: Name> Play<(), View> for Names<N> {
    ghost use Rattle.clock_table.specs.private.Plays.{Named};

    ghost then = { Named N.passes };
}

/// A fetch-max on the clamp word: the entry of a clamp.
pub struct Raises<E> {
    of: PhantomData<E>,
}

impl<E: Tag> Play<(), View> for Raises<E> {
    ghost use Rattle.clock_table.specs.private.Plays.{Raised};

    ghost then = { Raised E.tag };
}

/// A load of the clamp word: the entry of a clamp, where the word is no less than the reading.
pub struct Looks<E, F> {
    of: PhantomData<(E, F)>,
}

impl<E: Tag, F: Tag> Play<(), View> for Looks<E, F> {
    ghost use Rattle.clock_table.specs.private.Plays.{Looked};

    ghost then = { Looked E.tag F.tag };
}

/// A load of the front word, which ends a meet.
pub struct Parts;

impl Play<(), View> for Parts {
    ghost use Rattle.clock_table.specs.private.Plays.{Parted};

    ghost then = { Parted };
}

/// The pen is split off.
pub struct ThePen;

impl Split<View> for ThePen {
    ghost use Rattle.clock_table.specs.Steps.{pen_left, pen_right};

    ghost left = { pen_left };

    ghost right = { pen_right };
}

/// A seat joins another.
pub struct Meets;

impl Join<View> for Meets {
    ghost use Rattle.clock_table.specs.Steps.{met};
    ghost use Rattle.clock_table.specs.private.Plays.{spent};

    ghost both = { met };

    ghost spent = { spent };
}
