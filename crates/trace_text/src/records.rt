//! Records: what a processor does at a host counter.
ghost use Rattle.std.specs.Prelude.{◌≡◌, ◌<◌, ◌≤◌, Ok, IfOk, OnErr, IsErr, IfSome, IfNone, replicate};
ghost use Rattle.std.specs.Bool.{OnTrue, OnFalse};
ghost use Rattle.trace_text.specs.Tokens.{words_of};
ghost use Rattle.trace_text.specs.Records.{job_of, record_of, body_after, IsJob, IsRecord};
ghost use Rattle.trace_records.specs.Calls.{asking, reading};
ghost use Rattle.trace_text.specs.private.Reads.{IsReadInto, IsTaken, IsTurn};

use crate::front::Front;
use crate::groups::job_in;
use crate::usual::{usual_access, usual_clock, usual_job};
use crate::words::Words;
use reply_text::Reason;
use trace_records::{Asked, Call, ClockRead, Job, Record};

/// What is known after `begin`: the format, the number of processors, and the counter before of each.
#[derive(Clone, Copy, Debug, PartialEq, Eq)]
pub struct Body {
    pub(crate) format: u8,
    pub(crate) cpus: u8,
    pub(crate) before: [u64; 64],
}

impl Body {
    /// The record of these words, which is remembered for its processor.
    #[inline(never)]
    #[tactic(auto, unfolding(crate::specs::Records::record_of))]
    pub(crate) fn record(&mut self, mut words: Words<'_>) -> Result<Record, Reason>
        requires { self.old.cpus ≤ 64 }
        ensures record { result ≡ record_of self.old words.entry }
        ensures valid { IfOk result (IsRecord self.old) }
        ensures next { IfOk result (λ r. self.new ≡ body_after self.old r) }
        ensures still { OnErr result (self.new ≡ self.old) }
    {
        let cpu = words.short_dec().ok_or(Reason::Form)?;
        let h = words.dec().ok_or(Reason::Form)?;
        let job = job_in(self, words)?;
        if cpu >= u64::from(self.cpus) {
            return Err(Reason::Cpu);
        }
        let before = self.before[cpu as usize];
        if h < before {
            return Err(Reason::CounterFell { before });
        }
        let cpu = cpu as u8;
        self.remember(cpu, h, &job);
        Ok(Record { cpu, h, job })
    }

    /// The record of a line with this front, if it asks for one of the usual accesses; it is remembered for its processor.
    /// None for any other line. All of it stays out of memory.
    #[inline(always)]
    #[tactic(auto, unfolding(crate::specs::Records::record_of))]
    pub(crate) fn take_usual(&mut self, front: &Front<'_>) -> Option<Asked>
        requires { self.old.cpus ≤ 64 }
        ensures { IsTaken asking self.old (words_of front.now) result self.new }
    {
        let access = usual_access(self, front.left())?;
        let (cpu, h) = self.turn(front)?;
        self.before[cpu as usize] = h;
        Some(Asked { cpu, h, access })
    }

    /// The same of a record that reads the clock.
    #[inline(always)]
    #[tactic(auto, unfolding(crate::specs::Records::record_of))]
    pub(crate) fn take_clock(&mut self, front: &Front<'_>) -> Option<ClockRead>
        requires { self.old.cpus ≤ 64 }
        ensures { IsTaken reading self.old (words_of front.now) result self.new }
    {
        let page = usual_clock(self, front.left())?;
        let (cpu, h) = self.turn(front)?;
        self.before[cpu as usize] = h;
        Some(ClockRead { cpu, h, page })
    }

    /// Reads the record of a line with this front into one that is there, and remembers it for its processor; false where
    /// it is refused.
    #[inline(always)]
    #[tactic(auto, unfolding(crate::specs::Records::record_of))]
    pub(crate) fn read_after(&mut self, front: &Front<'_>, into: &mut Record) -> bool
        requires { self.old.cpus ≤ 64 }
        ensures { IsReadInto self.old (words_of front.now) result into.new self.new }
    {
        if !read_job(self, front.left(), &mut into.job) {
            return false;
        }
        let Some((cpu, h)) = self.turn(front) else {
            return false;
        };
        into.cpu = cpu;
        into.h = h;
        self.remember(cpu, h, &into.job);
        true
    }

    /// The same of the words of any line.
    pub(crate) fn read(&mut self, words: Words<'_>, into: &mut Record) -> bool
        requires { self.old.cpus ≤ 64 }
        ensures { IsReadInto self.old words.entry result into.new self.new }
    {
        match self.record(words) {
            Ok(record) => {
                *into = record;
                true
            }
            Err(_) => false,
        }
    }

    /// Whose turn it is: the processor and the counter of this front, if there is such a processor and its counter didn't fall.
    #[inline(always)]
    #[tactic(auto, unfolding(crate::specs::Records::record_of))]
    fn turn(&self, front: &Front<'_>) -> Option<(u8, u64)>
        requires { self.now.cpus ≤ 64 }
        ensures turn { IfSome result (λ t. IsTurn self.now (words_of front.now) t.0 t.1) }
        ensures cause { IfNone result (IsErr (record_of self.now (words_of front.now))) }
    {
        let cpu = front.cpu();
        let h = front.counter();
        if cpu < u64::from(self.cpus) && h >= self.before[cpu as usize] {
            Some((cpu as u8, h))
        } else {
            None
        }
    }

    /// Remembers the counter of a record for its processor, and that of the new host for all where the board moves.
    #[inline(always)]
    fn remember(&mut self, cpu: u8, h: u64, job: &Job)
        requires { cpu < 64 }
        ensures { self.new ≡ body_after self.old (record { cpu = cpu; h = h; job = job.now }) }
    {
        match *job {
            Job::Move { start, .. } => self.restart(start),
            _ => self.before[cpu as usize] = h,
        }
    }

    /// The host's counter begins anew for all processors. It is apart, so that a line is read where it is answered.
    #[cold]
    #[inline(never)]
    fn restart(&mut self, start: u64)
        ensures { self.new ≡ record self.old { before = replicate 64 start } }
    {
        self.before = [start; 64];
    }
}

/// Puts what a record does in its place, by the bytes after the counter; false where it does nothing that there is. It is
/// apart from where it is called. What guests ask often is read by its bytes, and the rest by its words. The usual accesses
/// aren't tested for: `take_usual` has done so.
#[inline(never)]
fn read_job(body: &Body, left: &[u8], into: &mut Job) -> bool
    ensures job { OnTrue result (job_of body.now (words_of left.now) ≡ Ok into.new) }
    ensures cause { OnFalse result (IsErr (job_of body.now (words_of left.now))) }
    ensures valid { OnTrue result (IsJob body.now into.new) }
{
    if let Some(page) = usual_clock(body, left) {
        *into = Job::Ask(Call::ReadClock { page });
        return true;
    }
    if let Some(job) = usual_job(body, left) {
        *into = job;
        return true;
    }
    match job_in(body, Words::new(left)) {
        Ok(job) => {
            *into = job;
            true
        }
        Err(_) => false,
    }
}
