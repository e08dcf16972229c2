//! One access: the run to its time, and then the access itself.
ghost use Rattle.std.specs.Prelude.{
  ◌≡◌,
  ◌≢◌,
  ◌+◌,
  ◌<◌,
  ◌≤◌,
  length,
  IsTrue,
  true,
  IfOk,
  IfErr,
  OnOk,
  OnErr,
  IsSome,
  Some,
  None,
};
ghost use Rattle.std.specs.Bool.{OnTrue, OnFalse};
ghost use Rattle.std.specs.List.{All};
ghost use Rattle.irq_edges.specs.Lines.{IsOfLine};
ghost use Rattle.board_types.specs.Legal.{is_legal};
ghost use Rattle.board_core.specs.Apics.{after_look};
ghost use Rattle.board_core.specs.Time.{now_of};
ghost use Rattle.board_core.specs.Access.{ran_to, after_nanoseconds, after_act, reply_of, after_access};
ghost use Rattle.board_core.specs.Refusals.{refusal_of};
ghost use Rattle.board_core.specs.Outcome.{IsAsked, IsOutcome, HasTaken, IsRefused};
ghost use Rattle.board_core.specs.private.Calls.{CanRun, HasRun};

use crate::apics::run_apics;
use crate::board::BoardState;
use crate::rises::count_rises_where;
use board_types::{Access, Refusal, Reply};
use irq_edges::{BurstList, EdgeList};

impl BoardState {
    /// One access by processor `cpu` at count `h` of the host's counter: the devices run to the greater of the
    /// board's time and of that at `h`, and then it acts once. A board that refuses stays as it is.
    #[tactic(auto, using(crate::proofs::Nanoseconds::after_access_nanoseconds))]
    pub fn access(&mut self, cpu: u8, h: u64, a: Access) -> Result<Reply, Refusal>
        requires cpu { cpu < self.old.cpus }
        requires legal { IsTrue (is_legal self.old.cpus self.old.format a) }
        ensures refused { IfErr result (λ e. refusal_of self.old cpu h a ≡ Some e) }
        ensures unchanged { OnErr result (self.new ≡ self.old) }
        ensures taken { OnOk result (refusal_of self.old cpu h a ≡ None) }
        ensures reply { IfOk result (λ r. r ≡ reply_of self.old cpu h a) }
        ensures state { OnOk result (self.new ≡ after_access self.old cpu h a) }
        // However many nanoseconds the body passes at once, the board is that of single ones.
        ensures stepped { OnOk result (self.new ≡ after_act (after_nanoseconds self.old h) cpu h a) }
        ensures of_lines { IfOk result (λ r. All IsOfLine r.edges) }
        // Running to its time brings at most six edges, and the access itself twelve.
        ensures few_run { OnOk result (length (ran_to self.old h).edges ≤ 6) }
        ensures few { IfOk result (λ r. length r.edges ≤ length (ran_to self.old h).edges + 12) }
    {
        let mut reply = Reply::empty();
        self.answer(cpu, h, a, &mut reply)?;
        Ok(reply)
    }

    /// The same into a reply that its caller keeps, without edges and messages in it (`Reply::clear`). It copies no reply,
    /// so it is faster than `access`.
    #[inline(always)]
    pub fn answer(&mut self, cpu: u8, h: u64, a: Access, reply: &mut Reply) -> Result<(), Refusal>
        requires { IsAsked self.old cpu a reply.old }
        ensures { IsOutcome self.old cpu h a result self.new reply.old reply.new }
    {
        if self.take(cpu, h, a, reply) {
            Ok(())
        } else {
            Err(self.refusal(cpu, h, a))
        }
    }

    /// Takes an access as `answer` does, unless it is refused; `refusal` says why. A refusal is large, and its place costs each
    /// access of a caller that keeps one: a caller to whom refusals are rare asks for it apart. This holds code for each kind of
    /// access that guests make often: a small caller takes all of it in, and a large one calls it.
    #[inline(always)]
    pub fn take(&mut self, cpu: u8, h: u64, a: Access, reply: &mut Reply) -> bool
        requires { IsAsked self.old cpu a reply.old }
        ensures taken { OnTrue result (HasTaken self.old cpu h a self.new reply.new) }
        ensures left { OnFalse result (IsRefused self.old cpu h a self.new reply.old reply.new) }
    {
        // In each of these arms the compiler knows the kind, and leaves out what the others need.
        match a {
            Access::PortIn { port } => self.take_known(cpu, h, Access::PortIn { port }, reply),
            Access::HpetRead { offset, width } => {
                self.take_known(cpu, h, Access::HpetRead { offset, width }, reply)
            }
            Access::PortOut { port, byte } => {
                self.take_known(cpu, h, Access::PortOut { port, byte }, reply)
            }
            Access::Ack { line } => self.take_known(cpu, h, Access::Ack { line }, reply),
            Access::MsrRead { msr } => self.take_known(cpu, h, Access::MsrRead { msr }, reply),
            Access::Step => self.take_known(cpu, h, Access::Step, reply),
            _ => self.take_known(cpu, h, a, reply),
        }
    }

    /// The same for a caller that itself spells out the kind of the access, as `Access::Step` or
    /// `Access::PortIn { port }`: its code goes into the caller, and holds what that kind needs alone.
    #[inline(always)]
    fn take_known(&mut self, cpu: u8, h: u64, a: Access, reply: &mut Reply) -> bool
        requires { IsAsked self.old cpu a reply.old }
        ensures taken { OnTrue result (HasTaken self.old cpu h a self.new reply.new) }
        ensures left { OnFalse result (IsRefused self.old cpu h a self.new reply.old reply.new) }
    {
        let to = match self.admit(cpu, h, a) {
            Ok(to) => to,
            Err(_refusal) => return false,
        };
        let looked = self.run_to(h, to, &mut reply.edges, &mut reply.bursts);
        let value = self.act(cpu, h, a, looked, &mut reply.edges);
        reply.value = value;
        reply.number = self.accesses;
        true
    }

    /// Why an access is refused that is.
    #[cold]
    #[inline(never)]
    pub fn refusal(&self, cpu: u8, h: u64, a: Access) -> Refusal
        requires cpu { cpu < self.now.cpus }
        requires legal { IsTrue (is_legal self.now.cpus self.now.format a) }
        requires refused { IsSome (refusal_of self.now cpu h a) }
        ensures { refusal_of self.now cpu h a ≡ Some result }
    {
        match self.admit(cpu, h, a) {
            Err(refusal) => refusal,
            Ok(_to) => unreachable!(),
        }
    }
}

impl BoardState {
    /// Runs to the time `to` of an access at count `h`, counts the rises on the way, and puts the messages of the run
    /// into an empty list. Answers whether nanoseconds went by: then a look at the deadlines finds none.
    pub(crate) fn run_to(
        &mut self,
        h: u64,
        to: u64,
        edges: &mut EdgeList,
        bursts: &mut BurstList,
    ) -> bool
        requires { CanRun self.old h to edges.old bursts.old }
        ensures ran { HasRun self.old h self.new edges.old edges.new bursts.new }
        ensures looked { result ≡ true → after_look self.new ≡ self.new }
    {
        if h <= self.host {
            return false;
        }
        if to == self.time_ns {
            self.host = h;
            return false;
        }
        self.run_on(h, to, edges, bursts);
        true
    }

    /// The same, where nanoseconds go by. It stands apart, so that an access at the board's own time needs no room
    /// for a run.
    #[inline(never)]
    fn run_on(&mut self, h: u64, to: u64, edges: &mut EdgeList, bursts: &mut BurstList)
        requires later { self.old.host < h }
        requires passes { now_of self.old ≢ to }
        requires run { CanRun self.old h to edges.old bursts.old }
        ensures ran { HasRun self.old h self.new edges.old edges.new bursts.new }
        ensures looked { after_look self.new ≡ self.new }
    {
        let before = edges.len();
        let from = self.time_ns;
        self.devices.bursts(from, to, bursts);
        self.host = h;
        self.time_ns = to;
        run_apics(
            &mut self.apics,
            self.anchor,
            self.guest_khz,
            &self.processors,
            from,
            to,
        );
        let came = self.devices.run_to(from, to, edges);
        count_rises_where(came, &mut self.rises, self.format, edges, before);
    }
}
