//! The line, its counts and its three events: a tick, an acknowledgement, a catch-up point.

ghost use Rattle.std.specs.Prelude.{◌≡◌, ◌+◌, ◌^◌, ◌<◌, ◌↔◌, IsSome, IfSome};
ghost use Rattle.tick_policy.specs.Line.{line_at_power_on, ticked_times, goes_again, acked};
ghost use Rattle.tick_policy.specs.Line.{acked_down, ack_answer, is_waiting, caught_up, set_up_to};
ghost use Rattle.tick_policy.specs.Parts.{IsTickLine, FollowsPolicy};

use crate::rules::{acknowledged, answer_of, brought_up, with_ticks};
use crate::{Counts, Policy, TickParts};
use std::marker::Model;

/// What an acknowledgement did.
#[derive(Clone, Copy, Debug, PartialEq, Eq)]
pub enum Acked {
    /// Nothing: the line wasn't up.
    NotUp,
    /// The line went down.
    Down,
    /// The line went down and, for a tick that waited, up again.
    DownUp,
}

/// A tick line. Its due ticks are always its rises, the ticks that wait and those lost; none waits
/// under `Discard`, and none is lost under `Delay` and `Slew`.
#[derive(Clone, Copy, Debug, PartialEq, Eq)]
#[repr(C)]
pub struct TickLine {
    /// The policy's number: a line may lie in memory that a program in C holds.
    policy: u8,
    /// Whether it is up.
    up: bool,
    /// The counts of its ticks.
    counts: Counts,
}

impl Model for TickLine {
    ghost use Rattle.tick_policy.specs.declared.parts.TickParts.{TickParts};

    ghost Value = { TickParts };

    ghost use Rattle.tick_policy.specs.Stored.{parts_of, stored, IsStored, stored-parts_of};

    ghost view = { parts_of };

    ghost invariant = { IsStored };

    ghost inverse = { stored };

    ghost inverse_ok = { stored-parts_of };
}

impl TickLine {
    /// A line that is down and has seen no tick.
    pub fn power_on(policy: Policy) -> TickLine
        ensures { result ≡ line_at_power_on policy }
    {
        let counts = Counts {
            due: 0,
            rises: 0,
            queue: 0,
            lost: 0,
        };
        TickLine::of(TickParts {
            policy,
            up: false,
            counts,
        })
    }

    /// `n` ticks are due, one after the other, as `n` single ones.
    pub fn due(&mut self, n: u64)
        requires { self.old.counts.due + n < 2 ^ 63 }
        ensures { self.new ≡ ticked_times n self.old }
    {
        if n > 0 {
            let parts = with_ticks(self.parts(), n);
            self.up = parts.up;
            self.counts = parts.counts;
        }
    }

    /// An acknowledgement: a line that is up goes down, and under `Delay` up again while a tick
    /// waits.
    pub fn ack(&mut self) -> Acked
        ensures state { self.new ≡ acked self.old }
        ensures answer { result ≡ ack_answer self.old }
    {
        let parts = self.parts();
        *self = TickLine::of(acknowledged(parts));
        answer_of(parts)
    }

    /// The first part of an acknowledgement: the line goes down, and isn't up again yet.
    pub fn ack_down(&mut self)
        ensures { self.new ≡ acked_down self.old }
    {
        self.up = false;
    }

    /// A catch-up point: under `Slew` a line that is down goes up while a tick waits. Answers
    /// whether it rose.
    pub fn catch_up(&mut self) -> bool
        ensures state { self.new ≡ caught_up self.old }
        ensures rose { result ≡ is_waiting self.old }
    {
        let rises = self.is_waiting();
        if rises {
            *self = TickLine::of(brought_up(self.parts()));
        }
        rises
    }

    /// Puts the line up or down and counts nothing. The periodic flag of the MC146818 is such a
    /// line: what enables and clears it moves the line without a tick.
    pub fn set_up(&mut self, up: bool)
        ensures { self.new ≡ set_up_to up self.old }
    {
        self.up = up;
    }

    /// Whether the line is up.
    pub fn is_up(&self) -> bool
        ensures { result ≡ self.now.up }
    {
        self.up
    }

    /// Whether a catch-up point would bring the line up: under `Slew`, where it is down and a tick
    /// waits.
    pub fn is_waiting(&self) -> bool
        ensures { result ≡ is_waiting self.now }
    {
        self.policy == Policy::Slew as u8 && !self.up && self.counts.queue > 0
    }

    /// Whether an acknowledgement would bring the line up again: under `Delay`, where it is up and
    /// a tick waits.
    pub fn goes_again(&self) -> bool
        ensures { result ≡ goes_again self.now }
    {
        self.policy == Policy::Delay as u8 && self.up && self.counts.queue > 0
    }

    /// The counts of its ticks.
    pub fn counts(&self) -> Counts
        ensures value { result ≡ self.now.counts }
        ensures sum { result.due ≡ result.rises + result.queue + result.lost }
        ensures policy { FollowsPolicy self.now.policy result }
    {
        self.counts
    }

    /// What becomes of a tick that finds the line up.
    pub fn policy(&self) -> Policy
        ensures { result ≡ self.now.policy }
    {
        match self.policy {
            0 => Policy::Discard,
            1 => Policy::Delay,
            _ => Policy::Slew,
        }
    }

    /// All fields, as a saved state keeps them.
    pub fn parts(&self) -> TickParts
        ensures value { result ≡ self.now }
        ensures valid { IsTickLine result }
    {
        TickParts {
            policy: self.policy(),
            up: self.up,
            counts: self.counts,
        }
    }

    /// The device with these fields, or None exactly where a condition on them fails.
    pub fn of_parts(parts: TickParts) -> Option<TickLine>
        ensures valid { IsSome result ↔ IsTickLine parts }
        ensures value { IfSome result (λ line. line ≡ parts) }
    {
        if parts.first_fault().is_none() {
            Some(TickLine::of(parts))
        } else {
            None
        }
    }

    /// The line with these fields.
    fn of(parts: TickParts) -> TickLine
        requires { IsTickLine parts }
        ensures { result ≡ parts }
    {
        TickLine {
            policy: parts.policy.byte(),
            up: parts.up,
            counts: parts.counts,
        }
    }
}
