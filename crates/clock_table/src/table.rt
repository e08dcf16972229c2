//! A table and its seats.
ghost use Rattle.std.specs.Prelude.{
  ◌≡◌,
  ◌<◌,
  ◌≤◌,
  ◌+◌,
  ◌*◌,
  ◌||◌,
  nat_le,
  MatchBool,
  [],
  true,
  None,
  Some,
};
ghost use Rattle.board_types.specs.declared.parts.TheConstants.{LAST_VERSION};
ghost use Rattle.board_history.specs.History.{version_after};
ghost use Rattle.board_history.specs.declared.entry.Entry.TheVariants.{Clamp};
ghost use Rattle.clock_table.specs.Words.{place as place_of, pages_for, words_for};
ghost use Rattle.clock_table.specs.Steps.{
  first_view,
  named,
  begun,
  put_in,
  Extends,
  Hears,
  first_read,
  noted_in,
  ReadEnds,
  number_in,
  pass_left,
  pass_right,
  pen_left,
  pen_right,
  met,
  parted,
  MeetTold,
};
ghost use Rattle.clock_table.specs.Calls.{
  HasOpen,
  IsReading,
  IsPass,
  IsPen,
  MayEnter,
  MayClose,
  MayEnd,
  MayRaise,
  PublishesNone,
  IsBump,
  entry_of,
  field_number,
};
ghost use Rattle.clock_table.specs.declared.view.Read.{Read};

use crate::blank::Blank;
use crate::call::Call;
use crate::field::Field;
use crate::name::{Ask, Name, Tag};
use crate::plays::{
    Begins, ClockRule, Fields, Finishes, Firsts, Looks, Meets, Names, NewPass, Parts, Puts, Raises,
    Seconds, ThePen,
};
use crate::view::View;
use atomic_table::{Seat, Table};
use board_core::{BoardState, Reply};
use board_history::Entry;
use std::alloc::Global;
use std::marker::{Brand, Model, PhantomData};

/// Words, no slots, and the opening state as the key of the rule.
pub(crate) type Words = Table<(), View, BoardState, ClockRule, Global>;

/// How far words that different threads write are apart: no two of them are in one line of a cache of 64 bytes, nor in two
/// that are fetched together.
pub(crate) const APART: usize = 16;

/// Where the front word, the clamp word and the first page are.
const FRONT: usize = 0;

pub(crate) const CLAMP: usize = APART;

pub(crate) const PAGES: usize = 2 * APART;

/// The words that all threads share: a front word, a clamp word, and five words for each page. Each step on one of
/// them is a single atomic one, sequentially consistent.
#[derive(Drop)]
pub struct ClockTable<N: Name> {
    pub(crate) table: Words,
    pub(crate) of: PhantomData<N>,
    pub(crate) ghost named: { table.shared.table_id ≡ N.table },
    pub(crate) ghost opened: { table.shared.key ≡ N.state },
    pub(crate) ghost sized: { table.shared.table_id.words ≡ words_for (pages_for N.state.cpus) },
    pub(crate) ghost plain: { table.shared.table_id.slots ≡ 0 },
}

/// A seat at a table, with which one thread steps. It takes no bytes. Contracts see it as its view.
#[derive(Drop)]
pub struct ClockSeat<N: Name> {
    pub(crate) seat: Seat<(), View>,
    pub(crate) of: PhantomData<N>,
}

impl<N: Name> Model for ClockSeat<N> {
    ghost use Rattle.std.specs.Prelude.{◌≡◌, [], true, Some};
    ghost use Rattle.clock_table.specs.declared.view.View.{View};

    ghost Value = { View };

    ghost view = { λ s. s.seat.me.0 };

    ghost invariant = { λ s. (s.seat.table_id ≡ N.table) × (s.seat.me.1 ≡ [])
        × (s.seat.me.0.live ≡ true) × (s.seat.me.0.limit ≡ Some N.passes) };
}

impl<N: Name> ClockTable<N> {
    /// The table of a blank, and the writer's seat, which holds the pen and has no number.
    pub fn new(blank: Blank) -> (ClockTable<N>, ClockSeat<N>)
        requires table { blank.0 ≡ N.table }
        requires state { blank.1 ≡ N.state }
        ensures { result.1 ≡ named N.passes (first_view N.state) }
    {
        let Blank { table, mut seat } = blank;
        table.shared.load::<Names<N>>(&mut seat, FRONT);
        (
            ClockTable {
                table,
                of: PhantomData,
            },
            ClockSeat {
                seat,
                of: PhantomData,
            },
        )
    }

    /// The seat of the next pass. Numbers go from 0.
    pub fn split_pass(&self, seat: &mut ClockSeat<N>) -> ClockSeat<N>
        requires pen { seat.old.pen ≡ true }
        requires meet { seat.old.meet ≡ None }
        requires room { seat.old.made < N.passes }
        ensures left { seat.new ≡ pass_left seat.old }
        ensures right { result ≡ pass_right seat.old }
    {
        let made = self.table.shared.split_seat::<NewPass>(&mut seat.seat);
        ClockSeat {
            seat: made,
            of: PhantomData,
        }
    }

    /// A seat without a number that holds the pen, which this one then lacks.
    pub fn split_pen(&self, seat: &mut ClockSeat<N>) -> ClockSeat<N>
        requires pen { seat.old.pen ≡ true }
        requires meet { seat.old.meet ≡ None }
        requires shut { seat.old.hand ≡ None }
        ensures left { seat.new ≡ pen_left seat.old }
        ensures right { result ≡ pen_right seat.old }
    {
        let made = self.table.shared.split_seat::<ThePen>(&mut seat.seat);
        ClockSeat {
            seat: made,
            of: PhantomData,
        }
    }

    /// One seat takes in another, one of which holds the pen. A meet is then open, until [`ClockTable::front`]; a
    /// number of the seat that went has ended.
    pub fn join(&self, into: &mut ClockSeat<N>, gone: ClockSeat<N>)
        requires pen { into.old.pen || gone.pen ≡ true }
        requires shut { (into.old.hand ≡ None) × (gone.hand ≡ None) }
        requires meet { (into.old.meet ≡ None) × (gone.meet ≡ None) }
        ensures { into.new ≡ met into.old gone }
    {
        let ClockSeat { seat, of: _ } = gone;
        self.table.shared.join_seat::<Meets>(&mut into.seat, seat);
    }

    /// Loads the front word, which ends a meet.
    pub fn front(&self, seat: &mut ClockSeat<N>) -> u64
        ensures view { seat.new ≡ parted seat.old }
        ensures told { MeetTold seat.old result }
    {
        self.table.shared.load::<Parts>(&mut seat.seat, FRONT)
    }

    /// Adds 1 to the front word: a read under the lock, which its entry describes.
    pub fn bump_read(&self, seat: &mut ClockSeat<N>, entry: &Entry)
        requires may { MayEnter entry.now seat.old }
        requires bump { IsBump seat.old.seen entry.now }
        ensures { Extends entry.now seat.old seat.new }
    {
        bump_read_as::<N, Brand>(self, seat, entry);
    }

    // No thread asks how many such accesses there were, so no word counts them: a store would take the line of the words
    // from the threads that read the pages.
    /// Enters an access that publishes no page, by a load of the front word. Its call and its reply describe it, so no
    /// entry is built, and the reply isn't moved.
    pub fn enter(&self, seat: &mut ClockSeat<N>, call: &Call, reply: &Reply)
        requires may { MayEnter (entry_of call.now reply.now) seat.old }
        requires none { PublishesNone N.state.cpus (entry_of call.now reply.now) }
        ensures { Extends (entry_of call.now reply.now) seat.old seat.new }
    {
        enter_as::<N, Brand>(self, seat, call, reply);
    }

    /// Opens a page: its version is odd from now on.
    pub fn begin(&self, seat: &mut ClockSeat<N>, page: u8)
        requires page { page ≤ N.state.cpus }
        requires pen { IsPen seat.old }
        requires shut { seat.old.hand ≡ None }
        requires room { version_after seat.old.seen page < LAST_VERSION }
        ensures { seat.new ≡ begun page seat.old }
    {
        self.table
            .shared
            .fetch_add::<Begins>(&mut seat.seat, place(page, 0), 1);
    }

    /// Stores a field of the open page.
    pub fn put(&self, seat: &mut ClockSeat<N>, page: u8, field: Field, word: u64)
        requires page { page ≤ N.state.cpus }
        requires pen { IsPen seat.old }
        requires open { HasOpen page seat.old }
        ensures { seat.new ≡ put_in (field_number field) word seat.old }
    {
        self.table
            .shared
            .store::<Puts>(&mut seat.seat, place(page, field.number() + 1), word);
    }

    /// Closes the page, whose version is then even: an access that publishes it.
    pub fn finish(&self, seat: &mut ClockSeat<N>, page: u8, call: &Call, reply: &Reply)
        requires { MayClose N.state.cpus page (entry_of call.now reply.now) seat.old }
        ensures { Extends (entry_of call.now reply.now) seat.old seat.new }
    {
        finish_as::<N, Brand>(self, seat, page, call, reply);
    }

    /// Loads the version of a page. An even one begins a read; an odd one is a miss.
    pub fn first(&self, seat: &mut ClockSeat<N>, page: u8) -> u64
        requires page { page ≤ N.state.cpus }
        requires pass { IsPass seat.old }
        ensures view { seat.new ≡ first_read page result seat.old }
        ensures least { version_after seat.old.seen page ≤ result }
    {
        self.table
            .shared
            .load::<Firsts>(&mut seat.seat, place(page, 0))
    }

    /// Loads a field of the page that is read.
    pub fn field(&self, seat: &mut ClockSeat<N>, page: u8, field: Field) -> u64
        requires page { page ≤ N.state.cpus }
        requires pass { IsPass seat.old }
        requires read { IsReading page seat.old }
        ensures { seat.new ≡ noted_in (field_number field) result seat.old }
    {
        self.table
            .shared
            .load::<Fields>(&mut seat.seat, place(page, field.number() + 1))
    }

    /// Loads the version again. Where it is as before, the page was read, at count `h`; else it is a miss.
    pub fn second(&self, seat: &mut ClockSeat<N>, page: u8, h: u64) -> u64
        requires { MayEnd N.state.cpus page seat.old }
        ensures { (r : Read) → seat.old.read ≡ Some r → ReadEnds N.state.cpus h r result seat.old seat.new }
    {
        second_as::<N, Brand>(self, seat, page, h)
    }

    /// Raises the clamp word to a reading, and answers the greater of the two. Where the word is as great already it is
    /// only loaded: a maximum would take its cache line from the other threads, and change nothing.
    pub fn raise(&self, seat: &mut ClockSeat<N>, cpu: u8, x: u64) -> u64
        requires { MayRaise N.state cpu x seat.old }
        ensures { Hears (Clamp (number_in seat.old) cpu x result) seat.old seat.new }
    {
        let found = look_as::<N, Brand, Brand>(self, seat, cpu, x);
        if x <= found {
            return found;
        }
        raise_as::<N, Brand>(self, seat, cpu, x)
    }
}

// A step's kind has no parameter but its type, so the entry, or the number in it, is one of a type that the call
// picks.

fn bump_read_as<N: Name, E: Ask>(table: &ClockTable<N>, seat: &mut ClockSeat<N>, entry: &Entry)
    requires entry { entry.now ≡ E.entry }
    requires may { MayEnter entry.now seat.old }
    requires bump { IsBump seat.old.seen entry.now }
    ensures { Extends entry.now seat.old seat.new }
{
    let _ = entry;
    table
        .table
        .shared
        .fetch_add::<Finishes<E>>(&mut seat.seat, FRONT, 1);
}

fn enter_as<N: Name, E: Ask>(
    table: &ClockTable<N>,
    seat: &mut ClockSeat<N>,
    call: &Call,
    reply: &Reply,
)
    requires entry { entry_of call.now reply.now ≡ E.entry }
    requires may { MayEnter (entry_of call.now reply.now) seat.old }
    requires none { PublishesNone N.state.cpus (entry_of call.now reply.now) }
    ensures { Extends (entry_of call.now reply.now) seat.old seat.new }
{
    let _ = call;
    let _ = reply;
    table
        .table
        .shared
        .load::<Finishes<E>>(&mut seat.seat, FRONT);
}

fn finish_as<N: Name, E: Ask>(
    table: &ClockTable<N>,
    seat: &mut ClockSeat<N>,
    page: u8,
    call: &Call,
    reply: &Reply,
)
    requires entry { entry_of call.now reply.now ≡ E.entry }
    requires may { MayClose N.state.cpus page (entry_of call.now reply.now) seat.old }
    ensures { Extends (entry_of call.now reply.now) seat.old seat.new }
{
    let _ = call;
    let _ = reply;
    table
        .table
        .shared
        .fetch_add::<Finishes<E>>(&mut seat.seat, place(page, 0), 1);
}

fn second_as<N: Name, E: Tag>(
    table: &ClockTable<N>,
    seat: &mut ClockSeat<N>,
    page: u8,
    h: u64,
) -> u64
    requires h { h ≡ E.tag }
    requires may { MayEnd N.state.cpus page seat.old }
    ensures { (r : Read) → seat.old.read ≡ Some r → ReadEnds N.state.cpus h r result seat.old seat.new }
{
    let _ = h;
    table
        .table
        .shared
        .load::<Seconds<N, E>>(&mut seat.seat, place(page, 0))
}

fn look_as<N: Name, E: Tag, F: Tag>(
    table: &ClockTable<N>,
    seat: &mut ClockSeat<N>,
    cpu: u8,
    x: u64,
) -> u64
    requires cpu { cpu ≡ E.tag }
    requires reading { x ≡ F.tag }
    requires may { MayRaise N.state cpu x seat.old }
    ensures { MatchBool (nat_le x result)
        (Hears (Clamp (number_in seat.old) cpu x result) seat.old seat.new) (seat.new ≡ seat.old) }
{
    let _ = cpu;
    let _ = x;
    table
        .table
        .shared
        .load::<Looks<E, F>>(&mut seat.seat, CLAMP)
}

fn raise_as<N: Name, E: Tag>(table: &ClockTable<N>, seat: &mut ClockSeat<N>, cpu: u8, x: u64) -> u64
    requires cpu { cpu ≡ E.tag }
    requires may { MayRaise N.state cpu x seat.old }
    ensures { Hears (Clamp (number_in seat.old) cpu x result) seat.old seat.new }
{
    let _ = cpu;
    let found = table
        .table
        .shared
        .fetch_max::<Raises<E>>(&mut seat.seat, CLAMP, x);
    if found < x { x } else { found }
}

/// Where a word of a page is. The pages are those of the processors, and after them the reference page.
fn place(page: u8, k: usize) -> usize
    requires { k < 5 }
    ensures { result ≡ place_of page k }
{
    PAGES + (APART * page as usize + k)
}
