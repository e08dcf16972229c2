//! How a run of the program ends.
ghost use Rattle.std.specs.Prelude.{◌≡◌, ◌++◌, IfOk, OnOk, OnErr};
ghost use Rattle.reply_text.specs.Text.{refused_text};
ghost use Rattle.trace_replay.specs.Records.{stops};
ghost use Rattle.trace_replay.specs.Status.{status_of, verdict_status};
ghost use Rattle.trace_replay.specs.private.Closed.{IsClosedBy};

use clk_units::NoMemory;
use reply_text::{Reason, Refused, refused_line};
use trace_loop::Ended;

/// How a trace ends.
#[derive(Clone, Copy, Debug, PartialEq, Eq)]
pub enum Verdict {
    /// It was read to `end`.
    Done,
    /// That line is refused.
    Stopped { line: u64, why: Refused },
}

/// How a run of the program ends. A line is that of the trace, counted from 1.
#[derive(Clone, Copy, Debug, PartialEq, Eq)]
pub enum Status {
    /// The job was done; a trace was read to `end`.
    Ok,
    /// The words are no defined command.
    Usage,
    /// That line is the first outside the grammar.
    BadRecord { line: u64, reason: Reason },
    /// The source failed.
    SourceFault,
    /// The sink failed.
    SinkFault,
    /// Memory ran out.
    NoMemory,
    /// The time of that line's counter, which is given in nanoseconds, is `clk_units::RANGE_NS` or more.
    OutOfRange { line: u64, ns: u128 },
    /// There were 2^62 accesses before that line.
    Spent { line: u64, number: u64 },
    /// That line would publish again a page, or the wall clock's words, whose version is the last one.
    VersionsSpent { line: u64, version: u64 },
    /// What the threads of a race gave back doesn't fit together, so a thread or a lock of the host broke.
    ThreadFault,
}

impl Status {
    ghost use Rattle.trace_replay.specs.Status.{number_of};

    /// The exit status of the program.
    pub fn number(self) -> u8
        ensures { result ≡ number_of self }
    {
        match self {
            Status::Ok => 0,
            Status::Usage => 2,
            Status::BadRecord { .. } => 3,
            Status::SourceFault => 4,
            Status::SinkFault => 5,
            Status::NoMemory => 6,
            Status::OutOfRange { .. } => 7,
            Status::Spent { .. } => 8,
            Status::VersionsSpent { .. } => 9,
            Status::ThreadFault => 10,
        }
    }
}

/// The status of how a trace ended.
pub fn verdict_status(verdict: Verdict) -> Status
    ensures { result ≡ verdict_status verdict }
{
    match verdict {
        Verdict::Done => Status::Ok,
        Verdict::Stopped { line, why } => match why {
            Refused::Invalid(reason) => Status::BadRecord { line, reason },
            Refused::Range { ns } => Status::OutOfRange { line, ns },
            Refused::Versions { version } => Status::VersionsSpent { line, version },
            Refused::Spent { number } => Status::Spent { line, number },
        },
    }
}

/// The status of a run over a trace.
pub fn status_of(ended: Ended<Verdict>) -> Status
    ensures { result ≡ status_of ended }
{
    match ended {
        Ended::By(verdict) => verdict_status(verdict),
        Ended::SourceFault => Status::SourceFault,
        Ended::SinkFault => Status::SinkFault,
        Ended::NoMemory => Status::NoMemory,
    }
}

/// Appends the line of a refusal, which ends the trace.
pub fn stop(line: u64, why: Refused, out: &mut Vec<u8>) -> Result<Verdict, NoMemory>
    ensures printed { OnOk result (out.new.items ≡ out.old.items ++ refused_text line why) }
    ensures ends { IfOk result (λ verdict. verdict ≡ Verdict.Stopped line why) }
    ensures err { OnErr result (out.new.items ≡ out.old.items) }
{
    refused_line(line, why, out)?;
    Ok(Verdict::Stopped { line, why })
}

/// The same as the answer to a line, which puts the end into the place that the caller keeps for it.
#[cold]
#[inline(never)]
pub(crate) fn refuse(
    line: u64,
    why: Refused,
    out: &mut Vec<u8>,
    end: &mut Option<Verdict>,
) -> Result<(), NoMemory>
    ensures { IsClosedBy (stops line why) out.old.items out.new.items end.new result }
{
    *end = Some(stop(line, why, out)?);
    Ok(())
}
