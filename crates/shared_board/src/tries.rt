//! Reads without the lock.
ghost use Rattle.std.specs.Prelude.{◌<◌, ◌≤◌, IfOk, IfErr, OnOk};
ghost use Rattle.host_counter.specs.Time.{HasTime};
ghost use Rattle.clock_table.specs.Calls.{IsPass};
ghost use Rattle.shared_board.specs.Tries.{HasHeard, HasMissed, IsTryFault};

use crate::fault::PageFault;
use crate::host::HostClock;
use clock_table::{ClockSeat, ClockTable, Field, Name};
use pvclock_page::{Page, words_page};

/// What the two loads of the version gave, where they met an update.
#[derive(Clone, Copy)]
struct Update {
    first: u64,
    second: u64,
}

/// Reads a page of the table: the version, the fields, the version again. `h` is the count in the entry.
#[inline(always)]
fn read_words<N: Name>(
    table: &ClockTable<N>,
    seat: &mut ClockSeat<N>,
    index: u8,
    h: u64,
) -> Result<Page, Update>
    requires index { index ≤ N.state.cpus }
    requires pass { IsPass seat.old }
    ensures ok { IfOk result (λ page. HasHeard N.state.cpus index h page seat.old seat.new) }
    ensures err { IfErr result (λ u. HasMissed index u.first u.second seat.old seat.new) }
{
    let first = table.first(seat, index);
    if first % 2 != 0 {
        return Err(Update {
            first,
            second: first,
        });
    }
    let stamp = table.field(seat, index, Field::Stamp);
    let system = table.field(seat, index, Field::System);
    let scale = table.field(seat, index, Field::Scale);
    let offset = table.field(seat, index, Field::Offset);
    let second = table.second(seat, index, h);
    if second != first {
        return Err(Update { first, second });
    }
    Ok(words_page(&[first, stamp, system, scale, offset]))
}

/// Reads a page of a table at count `h`, without a lock, as each read of a [`SharedBoard`](crate::SharedBoard) tries it: for
/// a reader of the words of a page that a monitor keeps itself. The pages are those of the processors, and after them the
/// reference page.
#[inline(always)]
pub fn try_table_on<N: Name>(
    table: &ClockTable<N>,
    host: &HostClock,
    seat: &mut ClockSeat<N>,
    index: u8,
    h: u64,
) -> Result<Page, PageFault>
    requires index { index ≤ N.state.cpus }
    requires pass { IsPass seat.old }
    ensures time { OnOk result (HasTime host.now.anchor h) }
    ensures ok { IfOk result (λ page. HasHeard N.state.cpus index h page seat.old seat.new) }
    ensures err { IfErr result (λ f. IsTryFault host.now.anchor index h f seat.old seat.new) }
{
    if let Err(fault) = host.check(h) {
        return Err(PageFault::NoTime(fault));
    }
    match read_words(table, seat, index, h) {
        Ok(page) => Ok(page),
        Err(Update { first, second }) => Err(PageFault::Again { first, second }),
    }
}
