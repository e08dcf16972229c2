//! The plain record of a tick line, and the conditions on its fields.

ghost use Rattle.std.specs.Prelude.{◌≡◌, ◌≤◌, ◌↔◌, IsNone};
ghost use Rattle.std.specs.Option.{SomeIff};
ghost use Rattle.tick_policy.specs.Parts.{policy_byte, policy_of, is_kept, is_slew, IsTickLine, queue_valid};
ghost use Rattle.tick_policy.specs.Parts.{lost_valid, first_fault};

/// What becomes of a tick that is due while the line is up.
#[derive(Clone, Copy, Debug, PartialEq, Eq)]
pub enum Policy {
    /// It is lost.
    Discard,
    /// It waits, and is shown at an acknowledgement: the line goes down and up again.
    Delay,
    /// It waits, and is shown at a catch-up point that finds the line down.
    Slew,
}

impl Policy {
    /// Its number in a saved state: 0 is `Discard`, 1 `Delay`, 2 `Slew`.
    pub fn byte(self) -> u8
        ensures { result ≡ policy_byte self }
    {
        self as u8
    }

    /// Whether a tick that waits is shown at a catch-up point.
    #[inline(always)]
    pub fn is_slew(self) -> bool
        ensures { result ≡ is_slew self }
    {
        matches!(self, Policy::Slew)
    }

    /// The policy of that number, or none where it is that of none.
    pub fn of_byte(byte: u8) -> Option<Policy>
        ensures { SomeIff result (byte ≤ 2) (policy_of byte) }
    {
        match byte {
            0 => Some(Policy::Discard),
            1 => Some(Policy::Delay),
            2 => Some(Policy::Slew),
            _ => None,
        }
    }
}

/// How many ticks there were since power on, by what became of them.
#[derive(Clone, Copy, Debug, PartialEq, Eq)]
#[repr(C)]
pub struct Counts {
    /// Ticks that were due.
    pub due: u64,
    /// Ticks with which the line went up.
    pub rises: u64,
    /// Ticks that wait.
    pub queue: u64,
    /// Ticks that are lost.
    pub lost: u64,
}

/// All fields of a tick line.
#[derive(Clone, Copy, Debug, PartialEq, Eq)]
pub struct TickParts {
    /// What becomes of a tick that finds the line up.
    pub policy: Policy,
    /// Whether the line is up.
    pub up: bool,
    /// The counts of its ticks.
    pub counts: Counts,
}

/// A field of a tick line on which there is a condition, in the order in which a saved state keeps
/// them.
#[derive(Clone, Copy, Debug, PartialEq, Eq)]
pub enum TickField {
    /// The ticks that wait: none under `Discard`.
    Queue,
    /// The lost ticks: none under `Delay` and `Slew`, and the due ticks are the rises, those that
    /// wait and these.
    Lost,
}

impl TickParts {
    /// The first field whose condition fails, or none where they are the fields of a tick line.
    pub fn first_fault(&self) -> Option<TickField>
        ensures value { result ≡ first_fault self.now }
        ensures valid { IsNone result ↔ IsTickLine self.now }
    {
        if !queue_valid(self) {
            Some(TickField::Queue)
        } else if !lost_valid(self) {
            Some(TickField::Lost)
        } else {
            None
        }
    }
}

/// Whether a tick that finds the line up waits.
fn is_kept(policy: Policy) -> bool
    ensures { result ≡ is_kept policy }
{
    match policy {
        Policy::Discard => false,
        Policy::Delay | Policy::Slew => true,
    }
}

/// Whether no tick waits under `Discard`.
pub fn queue_valid(line: &TickParts) -> bool
    ensures { result ≡ queue_valid line.now }
{
    is_kept(line.policy) || line.counts.queue == 0
}

/// Whether each due tick was shown, waits or is lost, and none is lost under `Delay` and `Slew`.
pub fn lost_valid(line: &TickParts) -> bool
    ensures { result ≡ lost_valid line.now }
{
    let Counts {
        due,
        rises,
        queue,
        lost,
    } = line.counts;
    let seen = u128::from(rises) + u128::from(queue) + u128::from(lost);
    u128::from(due) == seen && (!is_kept(line.policy) || lost == 0)
}
