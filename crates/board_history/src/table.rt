//! The pages of a board in the order of a table: one for each processor, and after the last the reference page of
//! Hyper-V.
ghost use Rattle.std.specs.Prelude.{◌≡◌, ◌≤◌};
ghost use Rattle.board_history.specs.Machine.{page_at, page_published};
ghost use Rattle.board_history.specs.History.{read_of};

use crate::entry::Entry;
use board_core::{Access, BoardState, published_by};
use board_types::MSR_HV_REFERENCE_TSC;
use hv_page::{as_page, of_page};
use pvclock_page::Page;

/// The page of a board at this place of the table.
pub fn table_page(board: &BoardState, index: u8) -> Page
    requires { index ≤ board.now.cpus }
    ensures { result ≡ page_at board.now index }
{
    if index == board.cpus() {
        as_page(&board.hv_page())
    } else {
        board.page(index)
    }
}

/// The page of the table of `cpus` processors that an access of processor `cpu` publishes.
pub fn page_published(cpus: u8, cpu: u8, access: Access) -> Option<u8>
    ensures { result ≡ page_published cpus cpu access }
{
    // The kind is asked first: mostly it says that no page is published.
    match access {
        Access::MsrWrite { msr, .. } => {
            if msr == MSR_HV_REFERENCE_TSC {
                Some(cpus)
            } else {
                published_by(cpu, access)
            }
        }
        _ => published_by(cpu, access),
    }
}

/// The entry of a read of a page at this place of the table of `cpus` processors.
pub fn read_entry(cpus: u8, pass: u64, index: u8, h: u64, page: &Page, locked: bool) -> Entry
    ensures { result ≡ read_of cpus pass index h page.now locked }
{
    if index == cpus {
        Entry::HvRead {
            pass,
            h,
            page: of_page(page),
            locked,
        }
    } else {
        Entry::PageRead {
            pass,
            cpu: index,
            h,
            page: *page,
            locked,
        }
    }
}
