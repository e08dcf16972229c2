//! The lines of edges.
ghost use Rattle.std.specs.Prelude.{
  ◌≡◌,
  ◌+◌,
  ◌<◌,
  ◌++◌,
  length,
  OnOk,
  OnErr,
  vec_len,
  vec_capacity,
};
ghost use Rattle.reply_text.specs.Text.{edge_text};

use crate::tail::Tail;
use clk_units::NoMemory;
use edge_hooks::Delivery;
use irq_edges::Edge;

/// The line of an edge: its nanosecond, its line and its direction; with a delivery, which only a rise has, also the
/// processor and the vector that it goes to.
#[inline(always)]
#[tactic(auto, unfolding(crate::specs::Text::edge_text))]
pub fn edge_line(edge: &Edge, to: Option<Delivery>, out: &mut Vec<u8>) -> Result<(), NoMemory>
    ensures ok { OnOk result (out.new.items ≡ out.old.items ++ edge_text edge.now to) }
    ensures err { OnErr result (out.new.items ≡ out.old.items) }
    ensures full { OnErr result (vec_capacity out.old
        < vec_len out.old + length (edge_text edge.now to)) }
{
    let mut tail = Tail::new();
    if let Some(to) = to {
        tail.hex(u64::from(to.vector), 1);
        tail.number(u64::from(to.cpu));
    }
    let direction: &[u8] = if edge.up { b"up" } else { b"down" };
    tail.word(direction);
    tail.number(u64::from(edge.line));
    tail.number(edge.at);
    tail.text(b"edge");
    tail.append_to(out)
}
