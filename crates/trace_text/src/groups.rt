//! The table of records: a row a name, chosen by its first byte.
ghost use Rattle.std.specs.Prelude.{◌≡◌, IfOk};
ghost use Rattle.trace_text.specs.Records.{job_of, IsJob};

use crate::jobs::{
    ack_job, clock_job, counts_job, hr_job, hv_job, hw_job, in_job, move_job, out_job, page_job,
    plain_job, rdmsr_job, refresh_job, rose_job, save_job, step_job, wrmsr_job,
};
use crate::records::Body;
use crate::words::Words;
use board_types::Access;
use reply_text::Reason;
use trace_records::Job;

/// What a record does, by the words after its counter: their first byte says which rows of the table it may be.
#[inline(never)]
#[tactic(auto, unfolding(crate::specs::Records::job_of))]
pub(crate) fn job_in(body: &Body, mut words: Words<'_>) -> Result<Job, Reason>
    ensures job { result ≡ job_of body.now words.entry }
    ensures valid { IfOk result (IsJob body.now) }
{
    match words.initial() {
        b'i' if words.takes(b"in") => in_job(body, &mut words),
        b'o' if words.takes(b"out") => out_job(body, &mut words),
        b'h' if words.takes(b"hr") => hr_job(body, &mut words),
        b'h' if words.takes(b"hw") => hw_job(body, &mut words),
        b'h' if words.takes(b"hv") => hv_job(body, &words),
        b'a' if words.takes(b"ack") => ack_job(body, &mut words),
        b'e' if words.takes(b"eoi") => plain_job(body, Access::Eoi, &words),
        b's' if words.takes(b"step") => step_job(body, &words),
        b's' if words.takes(b"save") => save_job(&words),
        b'r' if words.takes(b"rdmsr") => rdmsr_job(body, &mut words),
        b'r' if words.takes(b"refresh") => refresh_job(body, &mut words),
        b'r' if words.takes(b"rose") => rose_job(body, &mut words),
        b'w' if words.takes(b"wrmsr") => wrmsr_job(body, &mut words),
        b'w' if words.takes(b"wall") => plain_job(body, Access::Wall, &words),
        b'c' if words.takes(b"counts") => counts_job(body, &mut words),
        b'c' if words.takes(b"clock") => clock_job(body, &mut words),
        b'n' if words.takes(b"next") => plain_job(body, Access::Next, &words),
        b'p' if words.takes(b"page") => page_job(body, &mut words),
        b'm' if words.takes(b"move") => move_job(body, &mut words),
        _ => Err(Reason::Form),
    }
}
