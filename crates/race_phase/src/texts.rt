//! The blocks of records that a worker was told.
ghost use Rattle.std.specs.Prelude.{◌≡◌, ◌++◌, OnOk};
ghost use Rattle.trace_blocks.specs.Blocks.{block_of};
ghost use Rattle.race_phase.specs.private.Told.{answer_with};

use crate::told::Told;
use board_core::Reply;
use clk_units::NoMemory;
use reply_text::{clock_line, hv_line, page_line};
use shared_board::ReadReply;
use trace_blocks::{Deliveries, access_block};

/// Appends the block of a record that was answered so; the reply of an access is this.
#[tactic(auto, unfolding(trace_blocks::specs::Blocks::block_of))]
pub(crate) fn append_block(
    line: u64,
    told: &Told,
    reply: &Reply,
    deliveries: &Deliveries,
    out: &mut Vec<u8>,
) -> Result<(), NoMemory>
    ensures { OnOk result
        (out.new.items ≡ out.old.items ++ block_of deliveries.now line (answer_with told.now reply.now)) }
{
    match told {
        Told::Acted => access_block(line, reply, deliveries, None, out),
        Told::Read { reply } => match reply {
            ReadReply::Page { reply } => page_line(line, reply, out),
            ReadReply::Clock { reply } => clock_line(line, reply, out),
            ReadReply::Hv { reply } => hv_line(line, reply, out),
        },
    }
}
