//! The lines of a generated trace.
ghost use Rattle.std.specs.Prelude.{◌≡◌, ◌+◌, ◌<◌, ◌≤◌, ◌++◌, [], ◌∷◌, length};
ghost use Rattle.trace_gen.specs.Text.{two_digits, act_text, record_text, enable_text, header_text};

use crate::draws::Draws;
use crate::piece::Piece;

/// The header, by the number of processors.
#[tactic(auto, unfolding(crate::specs::Text::header_text))]
pub(crate) fn header(cpus: u8) -> Piece
    ensures value { result ≡ header_text cpus }
    ensures some { 0 < length result }
{
    let mut piece = Piece::of(b"\nbegin\n");
    piece.digits(u64::from(cpus));
    piece.text(b"clockboard 1\nguest 2000000\ncpus ");
    piece
}

/// The line that switches the page of a processor on.
#[tactic(auto, unfolding(crate::specs::Text::enable_text))]
pub(crate) fn enable(cpu: u8) -> Piece
    ensures value { result ≡ enable_text cpu }
    ensures some { 0 < length result }
{
    let mut piece = Piece::of(b" 0 wrmsr 4b564d01 1\n");
    piece.digits(u64::from(cpu));
    piece
}

/// The line of a record.
#[tactic(auto, unfolding(crate::specs::Text::record_text))]
pub(crate) fn record_line(cpus: u8, draws: &Draws) -> Piece
    requires cpus { 0 < cpus }
    requires made { 0 < draws.now.made }
    ensures value { result ≡ record_text cpus draws.now }
    ensures some { 0 < length result }
{
    let mut piece = act(draws.kind(), draws.byte());
    piece.text(b" ");
    piece.digits(draws.h);
    piece.text(b" ");
    piece.digits((draws.made - 1) % u64::from(cpus));
    piece
}

/// The end of that line: what the record does.
#[tactic(auto, unfolding(crate::specs::Text::act_text))]
fn act(kind: u64, byte: u8) -> Piece
    ensures value { result ≡ act_text kind byte ++ 10 ∷ [] }
    ensures short { length result ≤ 12 }
{
    match kind {
        0 => Piece::of(b"step\n"),
        1 => with_byte(b"out 43 ", byte),
        2 => with_byte(b"out 40 ", byte),
        3 => Piece::of(b"in 40\n"),
        4 => with_byte(b"out 42 ", byte),
        5 => with_byte(b"out 61 ", byte),
        6 => Piece::of(b"in 61\n"),
        7 => with_byte(b"out 70 ", byte),
        8 => with_byte(b"out 71 ", byte),
        9 => Piece::of(b"in 71\n"),
        10 => Piece::of(b"hr f0 8\n"),
        11 => with_byte(b"hw 108 8 ", byte),
        12 => Piece::of(b"ack 0\n"),
        13 => Piece::of(b"ack 8\n"),
        14 => Piece::of(b"clock 0\n"),
        _ => Piece::of(b"refresh 0\n"),
    }
}

/// The end of a line that ends with a byte.
fn with_byte(words: &[u8], byte: u8) -> Piece
    requires { length words.now ≤ 9 }
    ensures value { result ≡ words.now ++ two_digits byte ++ 10 ∷ [] }
    ensures short { length result ≡ length words.now + 3 }
{
    let mut piece = Piece::of(b"\n");
    piece.hex(byte);
    piece.text(words);
    piece
}
