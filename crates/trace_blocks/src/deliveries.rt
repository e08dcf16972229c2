//! Where the rises of lines and the messages of timers go, and their lines.
ghost use Rattle.std.specs.Prelude.{◌≡◌, ◌++◌, max, OnOk, OnErr, OnSome, IsTrue};
ghost use Rattle.std.specs.Io.{StartsWith};
ghost use Rattle.edge_hooks.specs.Hooks.{IsDelivery};
ghost use Rattle.trace_blocks.specs.Blocks.{
  delivery_to,
  delivery_of,
  edges_text,
  message_to,
  messages_text,
  sent_to,
};
ghost use Rattle.reply_text.specs.Text.{msg_text};
ghost use Rattle.std.specs.List.{flat_map};

use clk_units::NoMemory;
use edge_hooks::{Delivery, Message, MessageHooks};
use irq_edges::{BurstList, Edge};
use reply_text::{edge_line, msg_line};

/// The vector of a message whose own is reserved.
const DEFAULT_VECTOR: u8 = 0x30;

/// Who gets interrupts.
#[derive(Clone, Copy, Debug, PartialEq, Eq)]
pub struct Deliveries {
    /// How many processors there are.
    pub cpus: u8,
    /// Who gets a rise of the lines 0, 8, 20, 21, 22 and 23.
    pub lines: [Option<Delivery>; 6],
}

/// Who gets a rise of a line.
fn delivery_to(deliveries: &Deliveries, line: u8) -> Option<Delivery>
    ensures { result ≡ delivery_to deliveries.now line }
{
    match line {
        0 => deliveries.lines[0],
        8 => deliveries.lines[1],
        20 => deliveries.lines[2],
        21 => deliveries.lines[3],
        22 => deliveries.lines[4],
        23 => deliveries.lines[5],
        _ => None,
    }
}

/// Who gets an edge: a rise alone is delivered.
fn delivery_of(deliveries: &Deliveries, edge: &Edge) -> Option<Delivery>
    ensures value { result ≡ delivery_of deliveries.now edge.now }
    ensures rise { OnSome result (IsTrue edge.now.up) }
{
    if edge.up {
        delivery_to(deliveries, edge.line)
    } else {
        None
    }
}

/// Appends the lines of edges. After an `Err` the text begins as it was.
#[inline(always)]
pub(crate) fn edge_lines(
    edges: &[Edge],
    deliveries: &Deliveries,
    out: &mut Vec<u8>,
) -> Result<(), NoMemory>
    ensures ok { OnOk result
        (out.new.items ≡ out.old.items ++ edges_text deliveries.now edges.now) }
    ensures err { OnErr result (StartsWith out.new.items out.old.items) }
{
    for edge in edges {
        edge_line(edge, delivery_of(deliveries, edge), out)?;
    }
    Ok(())
}

/// Who gets a message, where there are so many processors: the processor in bits 19 to 12 of its address, and the
/// vector in bits 7 to 0 of its data (Intel SDM, volume 3, "Message Address Register Format" and "Message Data Register
/// Format"). Where there is no such processor it is processor 0, and vector 30h where its own is
/// reserved (own).
#[tactic(auto, unfolding(crate::specs::Blocks::message_to))]
pub fn message_to(cpus: u8, message: &Message) -> Delivery
    ensures value { result ≡ message_to cpus message.now }
    ensures valid { IsDelivery (max cpus 1) result }
{
    let cpu = ((message.address >> 12) % 256) as u8;
    let vector = (message.data % 256) as u8;
    Delivery {
        cpu: if cpu < cpus { cpu } else { 0 },
        vector: if vector < 16 { DEFAULT_VECTOR } else { vector },
    }
}

/// Appends the lines of messages, which the board's own hook sends. After an `Err` the text begins as it was.
#[inline(always)]
pub(crate) fn message_lines(
    bursts: &BurstList,
    deliveries: &Deliveries,
    out: &mut Vec<u8>,
) -> Result<(), NoMemory>
    ensures ok { OnOk result
        (out.new.items ≡ out.old.items ++ messages_text deliveries.now bursts.now) }
    ensures err { OnErr result (StartsWith out.new.items out.old.items) }
{
    if bursts.is_empty() {
        return Ok(());
    }
    sent_lines(bursts, deliveries.cpus, out)
}

/// The same where there are messages.
fn sent_lines(bursts: &BurstList, cpus: u8, out: &mut Vec<u8>) -> Result<(), NoMemory>
    ensures ok { OnOk result (out.new.items
        ≡ out.old.items ++ flat_map (λ b. msg_text (sent_to cpus b)) bursts.now) }
    ensures err { OnErr result (StartsWith out.new.items out.old.items) }
{
    let hooks = MessageHooks::new(cpus.max(1), |message: Message| message_to(cpus, &message));
    let sent = hooks.send(bursts);
    for sent in sent.as_slice() {
        msg_line(sent, out)?;
    }
    Ok(())
}
