//! The blocks of accesses, which a replay and a race print.
ghost use Rattle.std.specs.Prelude.{◌≡◌, ◌++◌, OnOk, OnErr};
ghost use Rattle.std.specs.Io.{StartsWith};
ghost use Rattle.trace_blocks.specs.Blocks.{edges_text, messages_text, block_of};
ghost use Rattle.trace_blocks.specs.declared.records.Answer.TheVariants.{Acted};

use crate::deliveries::{Deliveries, edge_lines, message_lines};
use board_core::Reply;
use clk_units::NoMemory;
use reply_text::{CountedLines, board_line};

/// Appends the lines of the edges of an access, and of its messages. After an `Err` the text begins as it was.
#[inline(always)]
pub(crate) fn event_lines(
    reply: &Reply,
    deliveries: &Deliveries,
    out: &mut Vec<u8>,
) -> Result<(), NoMemory>
    ensures ok { OnOk result (out.new.items ≡ out.old.items
        ++ (edges_text deliveries.now reply.now.edges ++ messages_text deliveries.now reply.now.bursts)) }
    ensures err { OnErr result (StartsWith out.new.items out.old.items) }
{
    edge_lines(reply.edges.as_slice(), deliveries, out)?;
    message_lines(&reply.bursts, deliveries, out)
}

/// Appends the block of an access: its edges, its messages, and its line. Where `counted` is given it prints the line. After
/// an `Err` the text begins as it was.
#[inline(always)]
#[tactic(auto, unfolding(crate::specs::Blocks::block_of))]
pub fn access_block(
    line: u64,
    reply: &Reply,
    deliveries: &Deliveries,
    counted: Option<&mut CountedLines>,
    out: &mut Vec<u8>,
) -> Result<(), NoMemory>
    ensures ok { OnOk result
        (out.new.items ≡ out.old.items ++ block_of deliveries.now line (Acted reply.now)) }
    ensures err { OnErr result (StartsWith out.new.items out.old.items) }
{
    event_lines(reply, deliveries, out)?;
    match counted {
        Some(lines) => lines.board_line(line, reply, out),
        None => board_line(line, reply, out),
    }
}
