//! The sum of a soak.
ghost use Rattle.std.specs.Prelude.{
  ◌≡◌,
  ◌+◌,
  ◌<◌,
  ◌++◌,
  length,
  OnOk,
  OnErr,
  vec_len,
  vec_capacity,
};
ghost use Rattle.reply_text.specs.Soak.{soak_text};

use crate::tail::Tail;
use clk_units::NoMemory;

/// The line of a soak: how many records were asked for, how many edges came, the time after the last record, and the
/// greatest clock reading that was given.
#[tactic(auto, unfolding(crate::specs::Soak::soak_text))]
pub fn soak_line(
    records: u64,
    edges: u64,
    time: u64,
    greatest: u64,
    out: &mut Vec<u8>,
) -> Result<(), NoMemory>
    ensures ok { OnOk result
        (out.new.items ≡ out.old.items ++ soak_text records edges time greatest) }
    ensures err { OnErr result (out.new.items ≡ out.old.items) }
    ensures full { OnErr result (vec_capacity out.old
        < vec_len out.old + length (soak_text records edges time greatest)) }
{
    let mut tail = Tail::new();
    tail.number(greatest);
    tail.number(time);
    tail.number(edges);
    tail.number(records);
    tail.text(b"soak");
    tail.append_to(out)
}
