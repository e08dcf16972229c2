//! The causes of a refusal, one by one.
ghost use Rattle.std.specs.Prelude.{◌≡◌, None};
ghost use Rattle.board_meters.specs.Meters.{spent_version, spent_accesses, or_spent};

use crate::meters::MoveFault;
use board_types::{LAST_VERSION, MOST_ACCESSES, Refusal};

/// The refusal where the version that an access would raise is the last one, else the next cause.
#[inline(always)]
pub fn spent_version(version: Option<u32>, next: Option<Refusal>) -> Option<Refusal>
    ensures { result ≡ spent_version version next }
{
    match version {
        Some(version) => {
            if version >= LAST_VERSION {
                Some(Refusal::VersionsSpent {
                    version: u64::from(version),
                })
            } else {
                next
            }
        }
        None => next,
    }
}

/// The refusal where a board has taken as many accesses as it takes.
#[inline(always)]
pub fn spent_accesses(accesses: u64) -> Option<Refusal>
    ensures { result ≡ spent_accesses accesses }
{
    if accesses >= MOST_ACCESSES {
        Some(Refusal::Spent { number: accesses })
    } else {
        None
    }
}

/// The fault of page `cpu`, where its version is the last one.
pub fn spent_page(cpu: u8, version: u32) -> Option<MoveFault>
    ensures { result ≡ or_spent None cpu version }
{
    if version >= LAST_VERSION {
        Some(MoveFault::VersionsSpent {
            cpu,
            version: u64::from(version),
        })
    } else {
        None
    }
}
