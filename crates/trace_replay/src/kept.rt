//! A board with the reply into which its accesses are answered, and what is kept of the lines of these.
ghost use Rattle.std.specs.Prelude.{◌≡◌};

use board_core::{BoardState, LazyBoard, Reply};
use reply_text::CountedLines;
use std::marker::Model;

/// A board, and a reply for its accesses, which is kept from one to the next: a new one has all its places cleared. Between two
/// accesses it holds no edge and no message; its number and its value mean nothing then. The digits of the last line are kept
/// too, since the next has mostly the same but one or two.
#[derive(Drop)]
pub(crate) struct KeptBoard {
    pub(crate) state: LazyBoard,
    pub(crate) reply: Reply,
    pub(crate) lines: CountedLines,
}

impl Model for KeptBoard {
    ghost use Rattle.board_types.specs.declared.parts.BoardParts.{BoardParts};

    ghost Value = { BoardParts };

    ghost use Rattle.board_types.specs.Reply.{IsFresh};

    ghost view = { λ k. k.state };

    ghost invariant = { λ k. IsFresh k.reply };
}

impl KeptBoard {
    /// A board that was asked nothing yet.
    pub(crate) fn new(state: BoardState) -> KeptBoard
        ensures { result ≡ state }
    {
        KeptBoard {
            state: LazyBoard::new(state),
            reply: Reply::empty(),
            lines: CountedLines::new(),
        }
    }
}
