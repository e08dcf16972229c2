//! What a record does, by the words after its counter.
ghost use Rattle.std.specs.Prelude.{◌≡◌, ◌<◌, nat_lt, if◌then◌else◌, Ok, Err, IfOk, OnSome, IfNone, codes};
ghost use Rattle.trace_text.specs.Tokens.{rest, first, such_that, decimal_past};
ghost use Rattle.trace_text.specs.Rows.{last};
ghost use Rattle.board_types.specs.declared.setup.TheConstants.{HV_FORMAT};
ghost use Rattle.trace_text.specs.Records.{
  board,
  to_msr,
  from_format,
  source,
  in_row,
  out_row,
  hr_row,
  hw_row,
  rdmsr_row,
  wrmsr_row,
  line_row,
  apic_counts,
  counts_row,
  page_row,
  move_row,
  page_at,
  IsJob,
};

use crate::records::Body;
use crate::words::Words;
use board_types::{APIC_FORMAT, Access, HV_FORMAT, TickSource, is_hpet_place, is_port};
use irq_edges::is_line;
use reply_text::Reason;
use trace_records::{Call, Job};

/// The MSR of steal time (Linux, "KVM-specific MSRs", MSR_KVM_STEAL_TIME), which isn't kept.
const MSR_STEAL_TIME: u32 = 0x4b56_4d03;

/// An access.
#[inline(always)]
pub(crate) fn act(access: Access) -> Job
    ensures { result ≡ Job.Ask (Call.Act access) }
{
    Job::Ask(Call::Act { access })
}

/// An access, if it is in form.
#[inline(always)]
fn act_if(in_form: bool, access: Access) -> Result<Job, Reason>
    ensures { result ≡ if in_form then Ok (Job.Ask (Call.Act access)) else Err Reason.Form }
{
    if in_form {
        Ok(act(access))
    } else {
        Err(Reason::Form)
    }
}

/// An access, if the board takes it.
#[inline(always)]
fn board(body: &Body, access: Access) -> Result<Job, Reason>
    ensures job { result ≡ board body.now access }
    ensures valid { IfOk result (IsJob body.now) }
{
    act_if(access.legal(body.cpus, body.format), access)
}

/// An access to this MSR.
fn to_msr(body: &Body, msr: u32, access: Access) -> Result<Job, Reason>
    ensures job { result ≡ to_msr body.now msr access }
    ensures valid { IfOk result (IsJob body.now) }
{
    if msr == MSR_STEAL_TIME {
        return Err(Reason::Steal);
    }
    board(body, access)
}

#[inline(always)]
pub(crate) fn in_job(body: &Body, words: &mut Words<'_>) -> Result<Job, Reason>
    ensures job { result ≡ in_row body.now words.old }
    ensures valid { IfOk result (IsJob body.now) }
{
    let port = words.hex8().ok_or(Reason::Form)?;
    words.end()?;
    act_if(is_port(port), Access::PortIn { port })
}

#[inline(always)]
pub(crate) fn out_job(body: &Body, words: &mut Words<'_>) -> Result<Job, Reason>
    ensures job { result ≡ out_row body.now words.old }
    ensures valid { IfOk result (IsJob body.now) }
{
    let port = words.hex8().ok_or(Reason::Form)?;
    let byte = words.byte().ok_or(Reason::Form)?;
    words.end()?;
    act_if(is_port(port), Access::PortOut { port, byte })
}

#[inline(always)]
pub(crate) fn hr_job(body: &Body, words: &mut Words<'_>) -> Result<Job, Reason>
    ensures job { result ≡ hr_row body.now words.old }
    ensures valid { IfOk result (IsJob body.now) }
{
    let offset = words.hex16().ok_or(Reason::Form)?;
    let width = words.dec8().ok_or(Reason::Form)?;
    words.end()?;
    act_if(
        is_hpet_place(offset, width),
        Access::HpetRead { offset, width },
    )
}

#[inline(always)]
pub(crate) fn hw_job(body: &Body, words: &mut Words<'_>) -> Result<Job, Reason>
    ensures job { result ≡ hw_row body.now words.old }
    ensures valid { IfOk result (IsJob body.now) }
{
    let offset = words.hex16().ok_or(Reason::Form)?;
    let width = words.dec8().ok_or(Reason::Form)?;
    let value = words.hex().ok_or(Reason::Form)?;
    words.end()?;
    board(
        body,
        Access::HpetWrite {
            offset,
            width,
            value,
        },
    )
}

#[inline(never)]
pub(crate) fn rdmsr_job(body: &Body, words: &mut Words<'_>) -> Result<Job, Reason>
    ensures job { result ≡ rdmsr_row body.now words.old }
    ensures valid { IfOk result (IsJob body.now) }
{
    let msr = words.hex32().ok_or(Reason::Form)?;
    words.end()?;
    to_msr(body, msr, Access::MsrRead { msr })
}

#[inline(never)]
pub(crate) fn wrmsr_job(body: &Body, words: &mut Words<'_>) -> Result<Job, Reason>
    ensures job { result ≡ wrmsr_row body.now words.old }
    ensures valid { IfOk result (IsJob body.now) }
{
    let msr = words.hex32().ok_or(Reason::Form)?;
    let value = words.hex().ok_or(Reason::Form)?;
    words.end()?;
    to_msr(body, msr, Access::MsrWrite { msr, value })
}

#[inline(always)]
pub(crate) fn ack_job(body: &Body, words: &mut Words<'_>) -> Result<Job, Reason>
    ensures job { result ≡ line_row body.now Access.Ack words.old }
    ensures valid { IfOk result (IsJob body.now) }
{
    let line = words.dec8().ok_or(Reason::Form)?;
    words.end()?;
    act_if(is_line(line), Access::Ack { line })
}

#[inline(never)]
pub(crate) fn rose_job(body: &Body, words: &mut Words<'_>) -> Result<Job, Reason>
    ensures job { result ≡ line_row body.now Access.Rose words.old }
    ensures valid { IfOk result (IsJob body.now) }
{
    let line = words.dec8().ok_or(Reason::Form)?;
    words.end()?;
    board(body, Access::Rose { line })
}

#[inline(always)]
pub(crate) fn step_job(body: &Body, words: &Words<'_>) -> Result<Job, Reason>
    ensures job { result ≡ last (board body.now Access.Step) words.now }
    ensures valid { IfOk result (IsJob body.now) }
{
    words.end()?;
    Ok(act(Access::Step))
}

/// An access without words after its name.
pub(crate) fn plain_job(body: &Body, access: Access, words: &Words<'_>) -> Result<Job, Reason>
    ensures job { result ≡ last (board body.now access) words.now }
    ensures valid { IfOk result (IsJob body.now) }
{
    words.end()?;
    board(body, access)
}

/// A source of ticks that each board has.
fn source(words: &mut Words<'_>) -> Option<TickSource>
    ensures value { result ≡ source words.old }
    ensures past { OnSome result (words.new ≡ rest words.old) }
    ensures still { IfNone result (words.new ≡ words.old) }
{
    if words.takes(b"pit") {
        Some(TickSource::Pit)
    } else if words.takes(b"rtc") {
        Some(TickSource::Rtc)
    } else {
        hpet_timer(words).map(TickSource::Hpet)
    }
}

/// The number of a timer of the HPET, after its name.
fn hpet_timer(words: &mut Words<'_>) -> Option<u8>
    ensures value { result ≡ such_that (λ n. nat_lt n 8)
        (first (decimal_past (codes "hpet")) words.old) }
    ensures past { OnSome result (words.new ≡ rest words.old) }
    ensures still { IfNone result (words.new ≡ words.old) }
{
    let mut more = words.again();
    let timer = more.dec_past(b"hpet")?;
    if timer < 8 {
        *words = more;
        Some(timer as u8)
    } else {
        None
    }
}

#[inline(never)]
pub(crate) fn counts_job(body: &Body, words: &mut Words<'_>) -> Result<Job, Reason>
    ensures job { result ≡ counts_row body.now words.old }
    ensures valid { IfOk result (IsJob body.now) }
{
    if let Some(from) = source(words) {
        words.end()?;
        return board(body, Access::CountsOf { from });
    }
    let cpu = words.dec_past(b"apic").ok_or(Reason::Form)?;
    words.end()?;
    apic_counts(body, cpu)
}

/// The ticks of the timer of this processor's local APIC.
fn apic_counts(body: &Body, cpu: u64) -> Result<Job, Reason>
    ensures job { result ≡ apic_counts body.now cpu }
    ensures valid { IfOk result (IsJob body.now) }
{
    if body.format < APIC_FORMAT {
        return Err(Reason::Form);
    }
    if cpu >= u64::from(body.cpus) {
        return Err(Reason::Cpu);
    }
    let from = TickSource::Apic(cpu as u8);
    Ok(act(Access::CountsOf { from }))
}

/// The number of a page, the last word of its line.
#[inline(always)]
fn page_in(body: &Body, words: &mut Words<'_>) -> Result<u8, Reason>
    ensures page { result ≡ page_at body.now words.old }
    ensures valid { IfOk result (λ p. p < body.now.cpus) }
{
    let page = words.short_dec().ok_or(Reason::Form)?;
    words.end()?;
    if page < u64::from(body.cpus) {
        Ok(page as u8)
    } else {
        Err(Reason::Cpu)
    }
}

#[inline(always)]
pub(crate) fn refresh_job(body: &Body, words: &mut Words<'_>) -> Result<Job, Reason>
    ensures job { result ≡ page_row body.now (λ p. Call.Act (Access.Refresh p)) words.old }
    ensures valid { IfOk result (IsJob body.now) }
{
    let page = page_in(body, words)?;
    Ok(act(Access::Refresh { page }))
}

pub(crate) fn page_job(body: &Body, words: &mut Words<'_>) -> Result<Job, Reason>
    ensures job { result ≡ page_row body.now Call.ReadPage words.old }
    ensures valid { IfOk result (IsJob body.now) }
{
    let page = page_in(body, words)?;
    Ok(Job::Ask(Call::ReadPage { page }))
}

#[inline(always)]
pub(crate) fn clock_job(body: &Body, words: &mut Words<'_>) -> Result<Job, Reason>
    ensures job { result ≡ page_row body.now Call.ReadClock words.old }
    ensures valid { IfOk result (IsJob body.now) }
{
    let page = page_in(body, words)?;
    Ok(Job::Ask(Call::ReadClock { page }))
}

pub(crate) fn hv_job(body: &Body, words: &Words<'_>) -> Result<Job, Reason>
    ensures job { result ≡ last (from_format HV_FORMAT body.now (Ok (Job.Ask Call.ReadHv))) words.now }
    ensures valid { IfOk result (IsJob body.now) }
{
    words.end()?;
    if body.format < HV_FORMAT {
        return Err(Reason::Form);
    }
    Ok(Job::Ask(Call::ReadHv))
}

pub(crate) fn save_job(words: &Words<'_>) -> Result<Job, Reason>
    ensures job { result ≡ last (Ok Job.Save) words.now }
{
    words.end()?;
    Ok(Job::Save)
}

#[inline(never)]
pub(crate) fn move_job(body: &Body, words: &mut Words<'_>) -> Result<Job, Reason>
    ensures job { result ≡ move_row body.now words.old }
    ensures valid { IfOk result (IsJob body.now) }
{
    let khz = words.khz().ok_or(Reason::Form)?;
    let start = words.dec().ok_or(Reason::Form)?;
    let gap = words.dec().ok_or(Reason::Form)?;
    words.end()?;
    Ok(Job::Move { khz, start, gap })
}
