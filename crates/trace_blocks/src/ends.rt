//! The end of a phase: a save or a move.
ghost use Rattle.std.specs.Prelude.{◌≡◌, ◌<◌, ◌++◌, Some, None, IfOk, IfSome, IfNone, OnOk, OnErr};
ghost use Rattle.std.specs.Option.{option_map};
ghost use Rattle.std.specs.Io.{StartsWith};
ghost use Rattle.clk_units.specs.Ranges.{IsKhz};
ghost use Rattle.board_core.specs.Refusals.{meters_of};
ghost use Rattle.transfer.specs.Move.{move_fault, moved_to};
ghost use Rattle.trace_blocks.specs.declared.ends.End.TheVariants.{Move};
ghost use Rattle.trace_blocks.specs.Blocks.{edges_text, messages_text};
ghost use Rattle.trace_blocks.specs.Refusals.{refused_move};
ghost use Rattle.trace_blocks.specs.Ends.{
  IsEnd,
  next_board,
  end_refusal,
  save_block,
  move_block,
  end_text,
};

use crate::blocks::event_lines;
use crate::deliveries::{Deliveries, edge_lines, message_lines};
use crate::refusals::{refused_access, refused_move};
use board_core::{Access, BoardState, Reply};
use clk_units::NoMemory;
use reply_text::{Refused, move_line, save_line};
use save_state::encode;
use transfer::{Moved, moved};

/// Where a board moves.
#[derive(Clone, Copy, Debug, PartialEq, Eq)]
pub struct NewHost {
    /// The rate of its counter in kHz, 100,000 to 10,000,000.
    pub khz: u64,
    /// Its count when the gap is over.
    pub start: u64,
    /// The gap in nanoseconds.
    pub gap: u64,
}

/// What ends a phase. A save and a move begin with an access that lets time pass, by a processor at a count of the
/// host's counter.
#[derive(Clone, Copy, Debug, PartialEq, Eq)]
pub enum End {
    /// The trace ends.
    Finish,
    /// The board is saved, and goes on.
    Save {
        line: u64,
        cpu: u8,
        h: u64,
    },
    /// The board moves to another host, and goes on there.
    Move {
        line: u64,
        cpu: u8,
        h: u64,
        host: NewHost,
    },
}

/// Does what ends a phase, and appends its block; or says why it is refused, and then appends nothing and leaves the board
/// as it was.
#[inline(never)]
pub fn end_phase(
    end: &End,
    board: &mut BoardState,
    deliveries: &Deliveries,
    out: &mut Vec<u8>,
) -> Result<Option<Refused>, NoMemory>
    requires end { IsEnd board.old.cpus end.now }
    ensures cause { IfOk result (λ f. f ≡ end_refusal (meters_of board.old) end.now) }
    ensures board { IfOk result (λ f. IfNone f (board.new ≡ next_board end.now board.old)) }
    ensures text { IfOk result (λ f. IfNone f (out.new.items
        ≡ out.old.items ++ end_text deliveries.now end.now board.old)) }
    ensures refused { IfOk result (λ f. IfSome f (λ _. out.new.items ≡ out.old.items)) }
    ensures unchanged { IfOk result (λ f. IfSome f (λ _. board.new ≡ board.old)) }
    ensures err { OnErr result (StartsWith out.new.items out.old.items) }
{
    match *end {
        End::Finish => Ok(None),
        End::Save { line, cpu, h } => match board.access(cpu, h, Access::Step) {
            Ok(reply) => {
                save(line, &reply, board, deliveries, out)?;
                Ok(None)
            }
            Err(refusal) => Ok(Some(refused_access(refusal))),
        },
        End::Move { line, cpu, h, host } => move_board(line, cpu, h, host, board, deliveries, out),
    }
}

/// Does a move. It is apart from the other ends, as it alone takes a copy of the board.
#[inline(never)]
fn move_board(
    line: u64,
    cpu: u8,
    h: u64,
    host: NewHost,
    board: &mut BoardState,
    deliveries: &Deliveries,
    out: &mut Vec<u8>,
) -> Result<Option<Refused>, NoMemory>
    requires end { IsEnd board.old.cpus (Move line cpu h host) }
    ensures cause { IfOk result (λ f. f ≡ end_refusal (meters_of board.old) (Move line cpu h host)) }
    ensures board { IfOk result
        (λ f. IfNone f (board.new ≡ next_board (Move line cpu h host) board.old)) }
    ensures text { IfOk result (λ f. IfNone f (out.new.items
        ≡ out.old.items ++ end_text deliveries.now (Move line cpu h host) board.old)) }
    ensures refused { IfOk result (λ f. IfSome f (λ _. out.new.items ≡ out.old.items)) }
    ensures unchanged { IfOk result (λ f. IfSome f (λ _. board.new ≡ board.old)) }
    ensures err { OnErr result (StartsWith out.new.items out.old.items) }
{
    let mut stepped = *board;
    match stepped.access(cpu, h, Access::Step) {
        Ok(reply) => cross_gap(line, &reply, host, &stepped, board, deliveries, out),
        Err(refusal) => Ok(Some(refused_access(refusal))),
    }
}

/// Appends the block of a save, whose access gave this reply.
fn save(
    line: u64,
    reply: &Reply,
    board: &BoardState,
    deliveries: &Deliveries,
    out: &mut Vec<u8>,
) -> Result<(), NoMemory>
    ensures ok { OnOk result (out.new.items
        ≡ out.old.items ++ save_block deliveries.now line reply.now board.now) }
    ensures err { OnErr result (StartsWith out.new.items out.old.items) }
{
    event_lines(reply, deliveries, out)?;
    let bytes = encode(*out.allocator(), board)?;
    save_line(line, reply.number, &bytes, out)
}

/// Takes a board over the gap, from the one after an access that gave this reply, and appends the block of the move.
fn cross_gap(
    line: u64,
    reply: &Reply,
    host: NewHost,
    stepped: &BoardState,
    board: &mut BoardState,
    deliveries: &Deliveries,
    out: &mut Vec<u8>,
) -> Result<Option<Refused>, NoMemory>
    requires rate { IsKhz host.khz }
    ensures cause { IfOk result
        (λ f. f ≡ option_map refused_move (move_fault host.gap stepped.now)) }
    ensures board { IfOk result (λ f. IfNone f
        (board.new ≡ moved_to host.khz host.start host.gap stepped.now)) }
    ensures text { IfOk result (λ f. IfNone f (out.new.items
        ≡ out.old.items ++ move_block deliveries.now line host reply.now stepped.now)) }
    ensures refused { IfOk result (λ f. IfSome f (λ _. out.new.items ≡ out.old.items)) }
    ensures unchanged { IfOk result (λ f. IfSome f (λ _. board.new ≡ board.old)) }
    ensures err { OnErr result (StartsWith out.new.items out.old.items) }
{
    match moved(stepped, host.khz, host.start, host.gap) {
        Ok(moved) => {
            all_edge_lines(reply, &moved, deliveries, out)?;
            all_message_lines(reply, &moved, deliveries, out)?;
            *board = moved.state;
            move_line(line, reply.number, board.now(), out)?;
            Ok(None)
        }
        Err(fault) => Ok(Some(refused_move(fault))),
    }
}

/// Appends the lines of the edges of a move's access, and then of its gap.
fn all_edge_lines(
    reply: &Reply,
    moved: &Moved,
    deliveries: &Deliveries,
    out: &mut Vec<u8>,
) -> Result<(), NoMemory>
    ensures ok { OnOk result (out.new.items ≡ out.old.items
        ++ (edges_text deliveries.now reply.now.edges ++ edges_text deliveries.now moved.now.edges)) }
    ensures err { OnErr result (StartsWith out.new.items out.old.items) }
{
    edge_lines(reply.edges.as_slice(), deliveries, out)?;
    edge_lines(moved.edges.as_slice(), deliveries, out)
}

/// The same of its messages.
fn all_message_lines(
    reply: &Reply,
    moved: &Moved,
    deliveries: &Deliveries,
    out: &mut Vec<u8>,
) -> Result<(), NoMemory>
    ensures ok { OnOk result (out.new.items ≡ out.old.items
        ++ (messages_text deliveries.now reply.now.bursts
        ++ messages_text deliveries.now moved.now.bursts)) }
    ensures err { OnErr result (StartsWith out.new.items out.old.items) }
{
    message_lines(&reply.bursts, deliveries, out)?;
    message_lines(&moved.bursts, deliveries, out)
}
