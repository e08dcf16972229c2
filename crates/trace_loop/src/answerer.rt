//! What answers the lines of a trace.
ghost use Rattle.std.specs.Prelude.{◌≡◌, ℕ, ◌<◌, ◌+◌, ◌^◌, List, ◌++◌, None, IfOk, OnOk, OnErr};
ghost use Rattle.trace_loop.specs.Progress.{Answer, Closing};
ghost use Rattle.trace_loop.specs.Answered.{IsAnswered};

use clk_units::NoMemory;

/// What answers the lines of a trace, one after the other, and the end of the input; `E` says how a trace may end.
pub trait Answerer<E: Drop> {
    // What a line does, by its number, what is known before it, and its bytes.
    ghost answer: { ℕ → Self → List ℕ → Answer Self E };

    // What the end of the input prints, and how it ends the trace, by the number of the line that would come next.
    ghost closing: { ℕ → Self → Closing E };

    // It may answer the line of this number.
    ghost may: { ℕ → Self → Type 0 };

    /// Answers a line: appends its block, and puts into `end`, which is empty, how it ends the trace, if it does.
    /// An answer that goes on moves no end. A line that is too long comes with one byte more than it may have. After an
    /// `Err` the text begins as it was.
    fn answer(
        &mut self,
        line: u64,
        text: &[u8],
        out: &mut Vec<u8>,
        end: &mut Option<E>,
    ) -> Result<(), NoMemory>
        requires room { line < 2 ^ 63 }
        requires may { may line self.old }
        requires open { end.old ≡ None }
        ensures answered { IsAnswered (answer line self.old text.now) self.old self.new
            out.old.items out.new.items end.new result }
        ensures may { OnOk result (end.new ≡ None → may (line + 1) self.new) };

    /// Answers the end of the input, where the line of this number would come next.
    fn close(&mut self, line: u64, out: &mut Vec<u8>) -> Result<E, NoMemory>
        requires room { line < 2 ^ 63 }
        requires may { may line self.old }
        ensures printed { OnOk result
            (out.new.items ≡ out.old.items ++ (closing line self.old).text) }
        ensures ends { IfOk result (λ end. end ≡ (closing line self.old).end) };
}

/// Answers a line: appends its block, and puts into `end` how it ends the trace, if it does. After an `Err` the text is
/// as it was.
#[inline(always)]
pub(crate) fn answer_line<E: Drop, T: Answerer<E>>(
    answerer: &mut T,
    line: u64,
    text: &[u8],
    out: &mut Vec<u8>,
    end: &mut Option<E>,
) -> Result<(), NoMemory>
    requires room { line < 2 ^ 63 }
    requires may { T.may line answerer.old }
    requires open { end.old ≡ None }
    ensures answered { IsAnswered (T.answer line answerer.old text.now) answerer.old answerer.new
        out.old.items out.new.items end.new result }
    ensures may { OnOk result (end.new ≡ None → T.may (line + 1) answerer.new) }
    ensures kept { OnErr result (out.new.items ≡ out.old.items) }
{
    let whole = out.len();
    let result = answerer.answer(line, text, out, end);
    if result.is_err() {
        out.truncate(whole);
    }
    result
}
