//! The HPET, the MSRs of a guest's clocks, acknowledgements, and what the board says of its ticks.
ghost use Rattle.std.specs.Prelude.{◌≡◌};
ghost use Rattle.board_types.specs.declared.access.Access.TheVariants.{
  HpetRead,
  HpetWrite,
  MsrRead,
  MsrWrite,
  Ack,
  Refresh,
  Wall,
  CountsOf,
  Rose,
  Eoi,
};
ghost use Rattle.clockboard_c.specs.Call.{IsCalled, source_of};

use crate::board::Board;
use crate::call::call;
use crate::reply::ReplyWords;
use board_types::{Access, TickSource};

/// A read of 1, 2, 4 or 8 bytes of the HPET, at an offset up to 3FFh.
#[unsafe(no_mangle)]
pub extern "C" fn clockboard_hpet_read(
    board: &mut Board,
    cpu: u8,
    host: u64,
    offset: u16,
    width: u8,
    reply: &mut ReplyWords,
)
    ensures { IsCalled board.old board.new reply.old reply.new cpu host (HpetRead offset width) }
{
    call(board, cpu, host, Access::HpetRead { offset, width }, reply);
}

/// A write to the HPET of a value that fits its width.
#[unsafe(no_mangle)]
pub extern "C" fn clockboard_hpet_write(
    board: &mut Board,
    cpu: u8,
    host: u64,
    offset: u16,
    width: u8,
    value: u64,
    reply: &mut ReplyWords,
)
    ensures { IsCalled board.old board.new reply.old reply.new cpu host (HpetWrite offset width value) }
{
    let access = Access::HpetWrite {
        offset,
        width,
        value,
    };
    call(board, cpu, host, access, reply);
}

/// A read of an MSR: 10h, 3Bh, 4B564D00h or 4B564D01h; from format 3 on 832h, 838h, 839h, 83Eh and 6E0h of the local
/// APIC's timer, from format 4 on 40000020h and 40000021h of Hyper-V's reference time.
#[unsafe(no_mangle)]
pub extern "C" fn clockboard_msr_read(
    board: &mut Board,
    cpu: u8,
    host: u64,
    msr: u32,
    reply: &mut ReplyWords,
)
    ensures { IsCalled board.old board.new reply.old reply.new cpu host (MsrRead msr) }
{
    call(board, cpu, host, Access::MsrRead { msr }, reply);
}

/// A write to one of these MSRs.
#[unsafe(no_mangle)]
pub extern "C" fn clockboard_msr_write(
    board: &mut Board,
    cpu: u8,
    host: u64,
    msr: u32,
    value: u64,
    reply: &mut ReplyWords,
)
    ensures { IsCalled board.old board.new reply.old reply.new cpu host (MsrWrite msr value) }
{
    call(board, cpu, host, Access::MsrWrite { msr, value }, reply);
}

/// An acknowledgement of one of the lines 0, 8, 20, 21, 22 and 23.
#[unsafe(no_mangle)]
pub extern "C" fn clockboard_acknowledge(
    board: &mut Board,
    cpu: u8,
    host: u64,
    line: u8,
    reply: &mut ReplyWords,
)
    ensures { IsCalled board.old board.new reply.old reply.new cpu host (Ack line) }
{
    call(board, cpu, host, Access::Ack { line }, reply);
}

/// The end of the interrupt of the local APIC's timer of processor `cpu`; from format 3 on.
#[unsafe(no_mangle)]
pub extern "C" fn clockboard_eoi(board: &mut Board, cpu: u8, host: u64, reply: &mut ReplyWords)
    ensures { IsCalled board.old board.new reply.old reply.new cpu host Eoi }
{
    call(board, cpu, host, Access::Eoi, reply);
}

/// The page of a processor is published.
#[unsafe(no_mangle)]
pub extern "C" fn clockboard_refresh(
    board: &mut Board,
    cpu: u8,
    host: u64,
    page: u8,
    reply: &mut ReplyWords,
)
    ensures { IsCalled board.old board.new reply.old reply.new cpu host (Refresh page) }
{
    call(board, cpu, host, Access::Refresh { page }, reply);
}

/// The wall clock's words: version, seconds, nanoseconds.
#[unsafe(no_mangle)]
pub extern "C" fn clockboard_wall(board: &mut Board, cpu: u8, host: u64, reply: &mut ReplyWords)
    ensures { IsCalled board.old board.new reply.old reply.new cpu host Wall }
{
    call(board, cpu, host, Access::Wall, reply);
}

/// The ticks of a source: those that were due, that rose, that wait, and that are lost. Source 0 is the 8254, 1 the
/// MC146818, 2 + k timer k of the HPET, and 16 + k the timer of processor k's local APIC.
#[unsafe(no_mangle)]
pub extern "C" fn clockboard_counts(
    board: &mut Board,
    cpu: u8,
    host: u64,
    source: u8,
    reply: &mut ReplyWords,
)
    ensures { IsCalled board.old board.new reply.old reply.new cpu host (CountsOf (source_of source)) }
{
    let from = source_of(source);
    call(board, cpu, host, Access::CountsOf { from }, reply);
}

/// How often a line went up; from format 2 on.
#[unsafe(no_mangle)]
pub extern "C" fn clockboard_rises(
    board: &mut Board,
    cpu: u8,
    host: u64,
    line: u8,
    reply: &mut ReplyWords,
)
    ensures { IsCalled board.old board.new reply.old reply.new cpu host (Rose line) }
{
    call(board, cpu, host, Access::Rose { line }, reply);
}

/// The source of a number.
fn source_of(source: u8) -> TickSource
    ensures { result ≡ source_of source }
{
    match source {
        0 => TickSource::Pit,
        1 => TickSource::Rtc,
        2..16 => TickSource::Hpet(source - 2),
        _ => TickSource::Apic(source - 16),
    }
}
