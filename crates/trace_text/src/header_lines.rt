//! The lines of a header, by the words after their names.
ghost use Rattle.std.specs.Prelude.{
  ◌≡◌,
  ◌<◌,
  ◌≤◌,
  ◌&&◌,
  nat_le,
  true,
  OnOk,
  OnSome,
  IfSome,
};
ghost use Rattle.board_types.specs.Setup.{IsSetup};
ghost use Rattle.board_types.specs.declared.setup.TheConstants.{LAST_FORMAT};
ghost use Rattle.irq_edges.specs.Lines.{is_line};
ghost use Rattle.trace_text.specs.Tokens.{rest, dec, byte, such_that};
ghost use Rattle.trace_text.specs.Rows.{left_by};
ghost use Rattle.trace_text.specs.Header.{
  policy,
  host_row,
  guest_row,
  cpus_row,
  policy_row,
  slew_row,
  wall_row,
  rtc_row,
  in_front,
  state_row,
  routed,
  route_row,
  IsHead,
};
ghost use Rattle.irq_edges.specs.Lines.{place_of_line};

use crate::header::{Begin, FORMAT_ROW, Head, ROUTE_ROW, STATE_ROW};
use crate::state::board_of;
use crate::words::Words;
use board_types::{Setup, processors_of};
use edge_hooks::Delivery;
use host_counter::Anchor;
use reply_text::Reason;
use rtc_calendar::TimeBytes;
use tick_policy::Policy;

/// The host's counter: its rate and its first count.
pub(crate) fn host(setup: &mut Setup, words: &mut Words<'_>) -> Result<(), Reason>
    requires { IsSetup setup.old }
    ensures setup { host_row setup.old words.old ≡ left_by result setup.new }
    ensures valid { OnOk result (IsSetup setup.new) }
{
    let khz = words.khz().ok_or(Reason::Form)?;
    let start = words.dec().ok_or(Reason::Form)?;
    words.end()?;
    setup.anchor = Anchor {
        khz,
        start,
        base_ns: 0,
    };
    Ok(())
}

/// The rate of the guest's TSC.
pub(crate) fn guest(setup: &mut Setup, words: &mut Words<'_>) -> Result<(), Reason>
    requires { IsSetup setup.old }
    ensures setup { guest_row setup.old words.old ≡ left_by result setup.new }
    ensures valid { OnOk result (IsSetup setup.new) }
{
    let guest_khz = words.khz().ok_or(Reason::Form)?;
    words.end()?;
    setup.guest_khz = guest_khz;
    Ok(())
}

/// How many processors there are.
pub(crate) fn cpus(setup: &mut Setup, words: &mut Words<'_>) -> Result<(), Reason>
    requires { IsSetup setup.old }
    ensures setup { cpus_row setup.old words.old ≡ left_by result setup.new }
    ensures valid { OnOk result (IsSetup setup.new) }
{
    let most = u64::from(processors_of(setup.format));
    let cpus = words.dec_within(1, most).ok_or(Reason::Form)?;
    words.end()?;
    setup.cpus = cpus as u8;
    Ok(())
}

/// What becomes of ticks that find their line up: of the 8254, the MC146818 and the HPET.
pub(crate) fn policies(setup: &mut Setup, words: &mut Words<'_>) -> Result<(), Reason>
    requires { IsSetup setup.old }
    ensures setup { policy_row setup.old words.old ≡ left_by result setup.new }
    ensures valid { OnOk result (IsSetup setup.new) }
{
    let pit = policy(words).ok_or(Reason::Form)?;
    let rtc = policy(words).ok_or(Reason::Form)?;
    let hpet = policy(words).ok_or(Reason::Form)?;
    words.end()?;
    setup.pit = pit;
    setup.rtc = rtc;
    setup.hpet = hpet;
    Ok(())
}

/// The nanoseconds between catch-up points.
pub(crate) fn slew(setup: &mut Setup, words: &mut Words<'_>) -> Result<(), Reason>
    requires { IsSetup setup.old }
    ensures setup { slew_row setup.old words.old ≡ left_by result setup.new }
    ensures valid { OnOk result (IsSetup setup.new) }
{
    let slew_ns = words.dec_within(1, 1_000_000_000).ok_or(Reason::Form)?;
    words.end()?;
    setup.slew_ns = slew_ns;
    Ok(())
}

/// The wall clock at time 0.
pub(crate) fn wall(setup: &mut Setup, words: &mut Words<'_>) -> Result<(), Reason>
    requires { IsSetup setup.old }
    ensures setup { wall_row setup.old words.old ≡ left_by result setup.new }
    ensures valid { OnOk result (IsSetup setup.new) }
{
    let sec = words.dec_within(0, 4_294_967_295).ok_or(Reason::Form)?;
    let nsec = words.dec_within(0, 999_999_999).ok_or(Reason::Form)?;
    words.end()?;
    setup.wall_sec = sec as u32;
    setup.wall_nsec = nsec as u32;
    Ok(())
}

/// The time bytes of the MC146818.
pub(crate) fn rtc(setup: &mut Setup, words: &mut Words<'_>) -> Result<(), Reason>
    requires { IsSetup setup.old }
    ensures setup { rtc_row setup.old words.old ≡ left_by result setup.new }
    ensures valid { OnOk result (IsSetup setup.new) }
{
    let time = TimeBytes {
        sec: words.byte().ok_or(Reason::Form)?,
        min: words.byte().ok_or(Reason::Form)?,
        hour: words.byte().ok_or(Reason::Form)?,
        wday: words.byte().ok_or(Reason::Form)?,
        date: words.byte().ok_or(Reason::Form)?,
        month: words.byte().ok_or(Reason::Form)?,
        year: words.byte().ok_or(Reason::Form)?,
    };
    words.end()?;
    setup.time = time;
    Ok(())
}

impl Head {
    /// A saved board in place of a setup, before all other lines.
    pub(crate) fn state(&mut self, format: u8, words: &mut Words<'_>) -> Result<(), Reason>
        requires valid { IsHead self.old }
        requires format { format ≤ LAST_FORMAT }
        ensures head { in_front self.old (state_row self.old format words.old)
            ≡ left_by result self.new }
        ensures valid { OnOk result (IsHead self.new) }
    {
        if self.row > FORMAT_ROW {
            return Err(Reason::Form);
        }
        let digits = words.word().ok_or(Reason::Form)?;
        words.end()?;
        let board = board_of(digits, format)?;
        self.row = STATE_ROW;
        self.begin = Begin::Saved(board);
        Ok(())
    }

    /// Where the rises of a line go.
    pub(crate) fn route(&mut self, words: &mut Words<'_>) -> Result<(), Reason>
        requires { IsHead self.old }
        ensures head { route_row self.old words.old ≡ left_by result self.new }
        ensures valid { OnOk result (IsHead self.new) }
    {
        let line = self.line_in(words).ok_or(Reason::Form)?;
        let cpu = words.dec().ok_or(Reason::Form)?;
        let vector = vector_in(words).ok_or(Reason::Form)?;
        words.end()?;
        self.add_route(line, cpu, vector)
    }

    /// The number of a line that may be routed next.
    fn line_in(&self, words: &mut Words<'_>) -> Option<u8>
        ensures value { result
            ≡ such_that (λ n. is_line n && nat_le self.now.next_line n) (dec words.old) }
        ensures past { OnSome result (words.new ≡ rest words.old) }
        ensures valid { IfSome result (λ n. is_line n ≡ true) }
    {
        let line = words.dec()?;
        if matches!(line, 0 | 8 | 20 | 21 | 22 | 23) && u64::from(self.next_line) <= line {
            Some(line as u8)
        } else {
            None
        }
    }

    /// A line's route to a processor that is there.
    fn add_route(&mut self, line: u8, cpu: u64, vector: u8) -> Result<(), Reason>
        requires valid { IsHead self.old }
        requires line { is_line line ≡ true }
        requires vector { 16 ≤ vector }
        ensures head { routed self.old line cpu vector ≡ left_by result self.new }
        ensures valid { OnOk result (IsHead self.new) }
    {
        if cpu >= u64::from(self.begin.cpus()) {
            return Err(Reason::Cpu);
        }
        self.row = ROUTE_ROW;
        self.next_line = line + 1;
        self.routes[place_of_line(line)] = Some(Delivery {
            cpu: cpu as u8,
            vector,
        });
        Ok(())
    }
}

/// A policy's word.
fn policy(words: &mut Words<'_>) -> Option<Policy>
    ensures value { result ≡ policy words.old }
    ensures past { OnSome result (words.new ≡ rest words.old) }
{
    if words.takes(b"discard") {
        Some(Policy::Discard)
    } else if words.takes(b"delay") {
        Some(Policy::Delay)
    } else if words.takes(b"slew") {
        Some(Policy::Slew)
    } else {
        None
    }
}

/// A vector from 10h on.
fn vector_in(words: &mut Words<'_>) -> Option<u8>
    ensures value { result ≡ such_that (λ n. nat_le 0x10 n) (byte words.old) }
    ensures past { OnSome result (words.new ≡ rest words.old) }
    ensures valid { IfSome result (λ n. 16 ≤ n) }
{
    let vector = words.byte()?;
    if vector >= 0x10 { Some(vector) } else { None }
}

/// The place of a line among the six.
fn place_of_line(line: u8) -> usize
    requires { is_line line ≡ true }
    ensures place { result ≡ place_of_line line }
    ensures within { result < 6 }
{
    match line {
        0 => 0,
        8 => 1,
        _ => usize::from(line) - 18,
    }
}
