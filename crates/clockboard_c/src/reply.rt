//! A reply as plain numbers, `struct clockboard_reply` of the header.
ghost use Rattle.std.specs.Prelude.{◌≡◌, ◌≤◌, [], length};
ghost use Rattle.irq_edges.specs.declared.bursts.TheConstants.{BURST_PLACES};
ghost use Rattle.irq_edges.specs.declared.edges.TheConstants.{EDGE_PLACES};
ghost use Rattle.clockboard_c.specs.Replies.{
  burst_words,
  no_burst,
  edge_words,
  no_edge,
  value_words,
  AreKept,
  IsReply,
  without_edges,
  refused,
  refused_at,
  taken,
  told_of,
  EdgesAre,
  BurstsAre,
};

use crate::code::OK;
use board_types::{Reply, Value};
use irq_edges::{BURST_PLACES, Burst, EDGE_PLACES, Edge};

/// A change of the level of a line.
#[derive(Clone, Copy)]
#[repr(C)]
pub struct EdgeWords {
    /// The nanosecond of the change.
    pub at_ns: u64,
    /// The number of the line: 0, 8, 20, 21, 22 or 23.
    pub line: u32,
    /// 1 where the line went up, 0 where it went down.
    pub up: u32,
}

/// The messages that a timer of the HPET sent, all to one address, at even distances.
#[derive(Clone, Copy)]
#[repr(C)]
pub struct BurstWords {
    /// The nanosecond of the first message.
    pub first_ns: u64,
    /// How many messages there are.
    pub count: u64,
    /// The nanoseconds from one message to the next; 0 where there is one alone.
    pub every_ns: u64,
    /// The address to which each is written.
    pub address: u32,
    /// What is written there.
    pub data: u32,
    /// The number of the timer.
    pub timer: u32,
    /// 0.
    pub reserved: u32,
}

/// What a call gave. After a code other than `OK` all but the code, the edges and the bursts is 0, and
/// after `BAD_STATE` the value.
#[derive(Clone, Copy)]
#[repr(C)]
pub struct ReplyWords {
    /// The code.
    pub answer: u32,
    /// How many edges there are.
    pub edge_count: u32,
    /// How many bursts of messages there are; from format 5 on.
    pub burst_count: u32,
    /// 0.
    pub reserved: u32,
    /// The number of the access, from 1 on; of a load or a move that of the last one, of power on and clock 0.
    pub number: u64,
    /// The board's time after the call, in nanoseconds.
    pub now_ns: u64,
    /// What was read: one number, or more where the call says so; else 0.
    pub value: [u64; 4],
    /// The edges in the order of time, those of the way before those of the access; the places after them are as
    /// they were.
    pub edges: [EdgeWords; EDGE_PLACES],
    /// The messages of the HPET's timers, in the order of timers; the places after them are as they were.
    pub bursts: [BurstWords; BURST_PLACES],
}

/// No value.
pub(crate) const NO_VALUE: [u64; 4] = [0; 4];

impl ReplyWords {
    /// A refusal with this code.
    pub(crate) fn refuse(&mut self, code: u32)
        ensures { IsReply self.old self.new (refused code) }
    {
        self.refuse_at(code, NO_VALUE);
    }

    /// A refusal with this code and four numbers.
    pub(crate) fn refuse_at(&mut self, code: u32, value: [u64; 4])
        ensures { IsReply self.old self.new (refused_at code value) }
    {
        self.put_head(code, 0, 0, value);
    }

    /// All but the places of edges and of bursts, of a reply without them.
    #[inline(always)]
    pub(crate) fn put_head(&mut self, code: u32, number: u64, now_ns: u64, value: [u64; 4])
        ensures { IsReply self.old self.new (without_edges code number now_ns value) }
    {
        self.answer = code;
        self.edge_count = 0;
        self.burst_count = 0;
        self.reserved = 0;
        self.number = number;
        self.now_ns = now_ns;
        self.value = value;
    }

    /// What the board answered an access that left it at this time.
    pub(crate) fn take_answer(&mut self, answered: &Reply, now_ns: u64)
        ensures { IsReply self.old self.new (told_of answered.now now_ns) }
    {
        self.take(
            answered.number,
            now_ns,
            value_words(answered.value),
            answered.edges.as_slice(),
            answered.bursts.as_slice(),
        );
    }

    /// The reply to a call that was taken.
    pub(crate) fn take(
        &mut self,
        number: u64,
        now_ns: u64,
        value: [u64; 4],
        edges: &[Edge],
        bursts: &[Burst],
    )
        requires edges { length edges.now ≤ EDGE_PLACES }
        requires bursts { length bursts.now ≤ BURST_PLACES }
        ensures { IsReply self.old self.new (taken number now_ns value edges.now bursts.now) }
    {
        self.put_head(OK, number, now_ns, value);
        self.edge_count = edges.len() as u32;
        self.burst_count = bursts.len() as u32;
        put_edges(&mut self.edges, edges);
        put_bursts(&mut self.bursts, bursts);
    }
}

/// Puts the edges at the front of the places.
fn put_edges(places: &mut [EdgeWords; EDGE_PLACES], edges: &[Edge])
    requires { length edges.now ≤ EDGE_PLACES }
    ensures front { EdgesAre places.new edges.now }
    ensures rest { AreKept (edge_words no_edge) (length edges.now) places.old places.new }
{
    for k in 0..edges.len() {
        places[k] = edge_words(edges[k]);
    }
}

/// An edge as numbers.
fn edge_words(edge: Edge) -> EdgeWords
    ensures { result ≡ edge_words edge }
{
    EdgeWords {
        at_ns: edge.at,
        line: u32::from(edge.line),
        up: if edge.up { 1 } else { 0 },
    }
}

/// Puts the bursts at the front of the places.
fn put_bursts(places: &mut [BurstWords; BURST_PLACES], bursts: &[Burst])
    requires { length bursts.now ≤ BURST_PLACES }
    ensures front { BurstsAre places.new bursts.now }
    ensures rest { AreKept (burst_words no_burst) (length bursts.now) places.old places.new }
{
    for k in 0..bursts.len() {
        places[k] = burst_words(bursts[k]);
    }
}

/// A burst as numbers.
fn burst_words(burst: Burst) -> BurstWords
    ensures { result ≡ burst_words burst }
{
    BurstWords {
        first_ns: burst.first,
        count: burst.count,
        every_ns: burst.every,
        address: burst.address,
        data: burst.data,
        timer: u32::from(burst.timer),
        reserved: 0,
    }
}

/// A value as four numbers.
#[inline(always)]
pub(crate) fn value_words(value: Value) -> [u64; 4]
    ensures { result ≡ value_words value }
{
    match value {
        Value::Nothing => NO_VALUE,
        Value::Byte(byte) => [u64::from(byte), 0, 0, 0],
        Value::Word { value, .. } => [value, 0, 0, 0],
        Value::Counts(counts) => [counts.due, counts.rises, counts.queue, counts.lost],
        Value::Wall { version, sec, nsec } => {
            [u64::from(version), u64::from(sec), u64::from(nsec), 0]
        }
        Value::Next(Some(at)) => [at, 1, 0, 0],
        Value::Next(None) => NO_VALUE,
    }
}
