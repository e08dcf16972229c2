//! Time that goes by, and the ports of the 8254 and of the MC146818.
ghost use Rattle.std.specs.Prelude.{◌≡◌};
ghost use Rattle.board_types.specs.declared.access.Access.TheVariants.{PortIn, PortOut, Step};
ghost use Rattle.clockboard_c.specs.Call.{IsCalled};
ghost use Rattle.clockboard_c.specs.private.Narrow.{narrowed};

use crate::board::Board;
use crate::call::call;
use crate::reply::ReplyWords;
use board_types::Access;

/// Nothing but the time up to count `host`.
#[unsafe(no_mangle)]
pub extern "C" fn clockboard_step(board: &mut Board, cpu: u8, host: u64, reply: &mut ReplyWords)
    ensures { IsCalled board.old board.new reply.old reply.new cpu host Step }
{
    call(board, cpu, host, Access::Step, reply);
}

/// A read of a port: 40h to 43h, 61h, 70h or 71h.
#[unsafe(no_mangle)]
pub extern "C" fn clockboard_port_read(
    board: &mut Board,
    cpu: u8,
    host: u64,
    port: u16,
    reply: &mut ReplyWords,
)
    ensures { IsCalled board.old board.new reply.old reply.new cpu host (PortIn port) }
{
    let port = narrowed(port);
    call(board, cpu, host, Access::PortIn { port }, reply);
}

/// A write of a byte to one of these ports.
#[unsafe(no_mangle)]
pub extern "C" fn clockboard_port_write(
    board: &mut Board,
    cpu: u8,
    host: u64,
    port: u16,
    byte: u8,
    reply: &mut ReplyWords,
)
    ensures { IsCalled board.old board.new reply.old reply.new cpu host (PortOut port byte) }
{
    let port = narrowed(port);
    call(board, cpu, host, Access::PortOut { port, byte }, reply);
}

/// A port as a byte. Port 0 is none of the board's, and stands for those that are no byte.
fn narrowed(port: u16) -> u8
    ensures { result ≡ narrowed port }
{
    if port <= 0xff { port as u8 } else { 0 }
}
