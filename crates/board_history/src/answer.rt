//! What a read of a page answers.
ghost use Rattle.std.specs.Prelude.{◌≡◌};
ghost use Rattle.board_core.specs.Pages.{answer_by};
ghost use Rattle.board_core.specs.Hv.{hv_answer_by};

use hv_page::{HvPage, HvReply, reply};
use pvclock_page::{Page, PageReply, reading};
use tsc_scale::tsc_by;

/// What a read of a page at count `h` of the host's counter answers: the page, and the time that it gives at the
/// TSC there, by the page's own offset. `ratio` is that of the guest's TSC to the host's counter
/// (`tsc_scale::ratio`).
pub fn answer_by(ratio: u64, page: &Page, h: u64) -> PageReply
    ensures { result ≡ answer_by ratio page.now h }
{
    if page.enabled {
        PageReply::On {
            page: *page,
            reading: reading(page, tsc_by(page.offset, h, ratio)),
        }
    } else {
        PageReply::Off
    }
}

/// What a read of the reference page of Hyper-V at count `h` answers, in the same way.
pub fn hv_answer_by(ratio: u64, page: &HvPage, h: u64) -> HvReply
    ensures { result ≡ hv_answer_by ratio page.now h }
{
    reply(page, tsc_by(page.tsc_offset, h, ratio))
}
