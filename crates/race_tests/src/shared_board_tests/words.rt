//! Reads of the words of a page while another writes it.
ghost use Rattle.std.specs.Prelude.{◌≡◌};
ghost use Rattle.clk_units.specs.Ranges.{IsKhz};
ghost use Rattle.board_history.specs.Machine.{page_at};

use super::setups::{Case, Ready, blank_of, plain_board, test_on};
use crate::checks::{holds, same};
use board_core::{Access, BoardState};
use board_io::OpenGate;
use clock_table::{Asked, Blank, ClockTable, Field, Name};
use shared_board::{HostClock, PageFault, try_table_on};
use std::marker::Brand;
use std::process::Abort;
use std::sync::Wait;
use std::test::Fail;

#[test]
fn a_try_meets_an_open_page(rt: HostRuntime) -> Result<(), Fail> {
    let state = plain_board();
    let blank = blank_of(rt.alloc(), &state)?;
    tried_while_open::<Brand, _>(&rt, blank, state);
    Ok(())
}

/// A pass tries page 0, which another has open.
fn tried_while_open<N: Name, R: Abort>(rt: &R, blank: Blank, state: BoardState)
    requires table { blank.0 ≡ N.table }
    requires blank { blank.1 ≡ N.state }
    requires cpus { N.state.cpus ≡ 2 }
    requires fresh { (page_at N.state 0).version ≡ 0 }
    requires rate { IsKhz state.anchor.khz }
    requires passes { 2 ≡ N.passes }
{
    let host = HostClock::new(state.anchor());
    let (table, mut writer) = ClockTable::<N>::new(blank);
    let mut one = table.split_pass(&mut writer);
    let mut two = table.split_pass(&mut writer);
    let pen = table.split_pen(&mut writer);
    table.join(&mut one, pen);
    table.front(&mut one);
    table.begin(&mut one, 0);
    let again = PageFault::Again {
        first: 1,
        second: 1,
    };
    let tried = try_table_on(&table, &host, &mut two, 0, 0);
    same(rt, "page 0", tried, Err(again));
}

#[test]
fn a_read_that_spans_a_whole_update_is_none(rt: HostRuntime) -> Result<(), Fail> {
    let case = Case::ReadRoundAnUpdate;
    test_on(&rt, rt.alloc(), case, plain_board(), 2)
}

/// One pass loads the words of page 0 with its seat, and before it loads the version again another publishes the page.
pub(super) fn read_round_an_update<N: Name, R: Wait + Abort>(
    rt: &R,
    ready: Ready<N>,
) -> Result<(), Fail> {
    let (board, mut one, two) = ready.two()?;
    let table = board.table();
    let mut seat = two.into_seat();
    let first = table.first(&mut seat, 0);
    if first % 2 != 0 {
        return Err("an odd version".into());
    }
    table.field(&mut seat, 0, Field::Stamp);
    table.field(&mut seat, 0, Field::System);
    table.field(&mut seat, 0, Field::Scale);
    table.field(&mut seat, 0, Field::Offset);
    let refresh = Asked {
        cpu: 0,
        h: 1_000,
        access: Access::Refresh { page: 0 },
    };
    let taken = board.access(rt, &OpenGate, &mut one, refresh).is_ok();
    let second = table.second(&mut seat, 0, 900);
    holds(rt, "the update", taken);
    same(rt, "versions", (first, second), (0, 2));
    Ok(())
}
