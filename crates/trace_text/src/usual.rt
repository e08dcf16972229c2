//! What most records do, as programs write them: `in`, `out`, `step`, `ack` and the read `hr f0 8` of the HPET's main counter, which
//! are read where a line is answered, and `clock`, `hw`, `refresh` and other reads of the HPET, which are read in a call.
ghost use Rattle.std.specs.Prelude.{◌≡◌, ℕ, ◌<◌, ◌≤◌, ◌%◌, ◌^◌, ◌++◌, [], length, take, codes, Ok, IfSome};
ghost use lib.Lanes.{number_l};
ghost use Rattle.trace_text.specs.Tokens.{words_of};
ghost use Rattle.trace_text.specs.Records.{
  job_of,
  in_row,
  out_row,
  hr_row,
  hw_row,
  line_row,
  page_row,
};
ghost use Rattle.trace_text.specs.private.Reads.{IsJobOf, acting};

use crate::jobs::act;
use crate::records::Body;
use crate::words::Words;
use board_types::{Access, is_hpet_place};
use irq_edges::is_line;
use std::simd::prelude::*;
use trace_records::{Call, Job};

/// The bytes `in ` as one word, the first of them in its lowest byte.
const IN: u32 = 0x20_6e69;

/// The same of `step`.
const STEP: u32 = 0x7065_7473;

/// The same of `ack `.
const ACK: u32 = 0x206b_6361;

/// The same of `out `.
const OUT: u32 = 0x2074_756f;

/// The same of the first four bytes of `clock `.
const CLOC: u32 = 0x636f_6c63;

/// The same of the first four bytes of `refresh `.
const REFR: u32 = 0x7266_6572;

/// The same of the first four bytes of `hr f0 8`.
const COUNTER: u32 = 0x6620_7268;

/// The same of `hr `.
const HR: u32 = 0x20_7268;

/// The same of `hw `.
const HW: u32 = 0x20_7768;

/// The access that most records ask for, by the bytes after the counter; None also for what others do. The first four of
/// them tell which it is, since each has as many. How long each is is tested first: then none of its words needs a test of the
/// line's end. It is small, so that the answer to a line is inlined in the loop over the lines.
#[inline(always)]
pub(crate) fn usual_access(body: &Body, left: &[u8]) -> Option<Access>
    ensures { IsJobOf acting body.now (job_of body.now (words_of left.now)) result }
{
    if left.len() < 4 {
        return None;
    }
    let prefix = first_four(left);
    if prefix % 0x100_0000 == IN {
        if left.len() != b"in 40".len() {
            return None;
        }
        return usual_in(body, &mut Words::new(&left[3..]));
    }
    match prefix {
        STEP => usual_step(&left[4..]),
        ACK => {
            if left.len() != b"ack 0".len() {
                return None;
            }
            usual_ack(body, &mut Words::new(&left[4..]))
        }
        OUT => {
            if left.len() != b"out 43 34".len() {
                return None;
            }
            usual_out(body, &mut Words::new(&left[4..]))
        }
        COUNTER => usual_counter(&left[4..]),
        _ => None,
    }
}

/// The page by which a record reads the clock, by the bytes after the counter; None for what others do.
#[inline(always)]
pub(crate) fn usual_clock(body: &Body, left: &[u8]) -> Option<u8>
    ensures { IsJobOf (λ p. Job.Ask (Call.ReadClock p)) body.now (job_of body.now (words_of left.now)) result }
{
    if left.len() < 4 {
        return None;
    }
    let prefix = first_four(left);
    if prefix != CLOC {
        return None;
    }
    let digits = after(&left[4..], b"k ")?;
    if digits.len() > 2 {
        return None;
    }
    usual_page(body, &mut Words::new(digits))
}

/// What other records do that guests often ask, by the bytes after the counter; None also for what the rest do.
#[inline(always)]
pub(crate) fn usual_job(body: &Body, left: &[u8]) -> Option<Job>
    ensures { IsJobOf (λ j. j) body.now (job_of body.now (words_of left.now)) result }
{
    if left.len() < 4 {
        return None;
    }
    let prefix = first_four(left);
    if prefix == REFR {
        let digits = after(&left[4..], b"esh ")?;
        let page = usual_page(body, &mut Words::new(digits))?;
        return Some(act(Access::Refresh { page }));
    }
    match prefix % 0x100_0000 {
        HR => {
            if left.len() != b"hr f0 8".len() {
                return None;
            }
            usual_hr(body, &mut Words::new(&left[3..]))
        }
        HW => usual_hw(body, &mut Words::new(&left[3..])),
        _ => None,
    }
}

/// The first four bytes of a text as one word, the first of them in its lowest byte. They are loaded at once.
#[inline(always)]
fn first_four(text: &[u8]) -> u32
    requires { 4 ≤ length text.now }
    ensures { result ≡ number_l 256 (take 4 text.now) % 2 ^ 32 }
{
    u32x1::from_le_bytes(u8x4::from_slice(text)).to_array()[0]
}

/// The bytes after a prefix, if a text begins with it. A loop, which the compiler unrolls for a name that it knows, where
/// `strip_prefix` is a call.
#[inline(always)]
fn after<'a>(text: &'a [u8], prefix: &[u8]) -> Option<&'a [u8]>
    ensures { IfSome result (λ rest. text.now ≡ prefix.now ++ rest.now) }
{
    if text.len() < prefix.len() {
        return None;
    }
    for i in 0..prefix.len() {
        if text[i] != prefix[i] {
            return None;
        }
    }
    Some(&text[prefix.len()..])
}

/// A step, if nothing comes after its name.
#[inline(always)]
fn usual_step(more: &[u8]) -> Option<Access>
    ensures job { IfSome result (λ a. (more.now ≡ []) × (a ≡ Access.Step)) }
{
    if more.is_empty() {
        Some(Access::Step)
    } else {
        None
    }
}

/// A read of the whole main counter, if this comes after the first four bytes.
#[inline(always)]
fn usual_counter(more: &[u8]) -> Option<Access>
    ensures job { IfSome result (λ a. (more.now ≡ codes "0 8") × (a ≡ Access.HpetRead 0xf0 8)) }
{
    if !after(more, b"0 8")?.is_empty() {
        return None;
    }
    Some(Access::HpetRead {
        offset: 0xf0,
        width: 8,
    })
}

/// The port, if it has two digits.
#[inline(always)]
fn usual_in(body: &Body, words: &mut Words<'_>) -> Option<Access>
    ensures { IsJobOf acting body.now (in_row body.now words.old) result }
{
    let port = words.usual_port()?;
    if words.end().is_err() {
        return None;
    }
    Some(Access::PortIn { port })
}

/// The port and the byte, if they have two digits.
#[inline(always)]
fn usual_out(body: &Body, words: &mut Words<'_>) -> Option<Access>
    ensures { IsJobOf acting body.now (out_row body.now words.old) result }
{
    let port = words.usual_port()?;
    let byte = words.two_digits()?;
    if words.end().is_err() {
        return None;
    }
    Some(Access::PortOut { port, byte })
}

/// The offset and the width, if they have two digits and one, as those of the main counter have.
#[inline(always)]
fn usual_hr(body: &Body, words: &mut Words<'_>) -> Option<Job>
    ensures { IsJobOf (λ j. j) body.now (hr_row body.now words.old) result }
{
    let offset = u16::from(words.two_digits()?);
    let width = words.one_digit()?;
    if words.end().is_err() || width >= 0x100 || !is_hpet_place(offset, width as u8) {
        return None;
    }
    let width = width as u8;
    Some(act(Access::HpetRead { offset, width }))
}

/// The line, if its number has one digit.
#[inline(always)]
fn usual_ack(body: &Body, words: &mut Words<'_>) -> Option<Access>
    ensures { IsJobOf acting body.now (line_row body.now Access.Ack words.old) result }
{
    let line = words.one_digit()?;
    if words.end().is_err() || line >= 0x100 || !is_line(line as u8) {
        return None;
    }
    let line = line as u8;
    Some(Access::Ack { line })
}

/// The page, if its number has one digit or two.
#[inline(always)]
fn usual_page(body: &Body, words: &mut Words<'_>) -> Option<u8>
    ensures job { IfSome result (λ p. (call : ℕ → Call) → page_row body.now call words.old
        ≡ Ok (Job.Ask (call p))) }
    ensures valid { IfSome result (λ p. p < body.now.cpus) }
{
    let page = words.usual_dec()?;
    if words.end().is_err() || page >= u64::from(body.cpus) {
        return None;
    }
    let page = page as u8;
    Some(page)
}

/// The offset, the width and the value, if the width has one digit.
#[inline(always)]
fn usual_hw(body: &Body, words: &mut Words<'_>) -> Option<Job>
    ensures { IsJobOf (λ j. j) body.now (hw_row body.now words.old) result }
{
    let offset = words.usual_hex()?;
    let width = words.one_digit()?;
    let value = words.usual_hex()?;
    if words.end().is_err() || offset >= 0x1_0000 || width >= 0x100 {
        return None;
    }
    let access = Access::HpetWrite {
        offset: offset as u16,
        width: width as u8,
        value,
    };
    if access.legal(body.cpus, body.format) {
        Some(act(access))
    } else {
        None
    }
}
