//! Replies of the board, and messages of its timers.
ghost use Rattle.std.specs.Prelude.{
  ◌≡◌,
  ◌+◌,
  ◌<◌,
  ◌≤◌,
  ◌++◌,
  [],
  ◌∷◌,
  length,
  OnOk,
  OnErr,
  vec_len,
  vec_capacity,
};
ghost use Rattle.reply_text.specs.Words.{spaced};
ghost use Rattle.reply_text.specs.Text.{msg_text, value_text, value_words};

use crate::tail::Tail;
use board_types::{Reply, Value};
use clk_units::NoMemory;
use edge_hooks::Sent;

/// The line of a board's reply: the line of the record, the number of the access, and its value where it has one.
pub fn board_line(line: u64, reply: &Reply, out: &mut Vec<u8>) -> Result<(), NoMemory>
    ensures ok { OnOk result (out.new.items ≡ out.old.items ++ value_text line reply.now.number reply.now.value) }
    ensures err { OnErr result (out.new.items ≡ out.old.items) }
    ensures full { OnErr result (vec_capacity out.old
        < vec_len out.old + length (value_text line reply.now.number reply.now.value)) }
{
    value_line(line, reply.number, &reply.value, out)
}

/// The same of a reply's parts, for a caller that has no reply whole.
#[tactic(auto, unfolding(crate::specs::Text::value_text))]
pub fn value_line(line: u64, number: u64, value: &Value, out: &mut Vec<u8>) -> Result<(), NoMemory>
    ensures ok { OnOk result (out.new.items ≡ out.old.items ++ value_text line number value.now) }
    ensures err { OnErr result (out.new.items ≡ out.old.items) }
    ensures full { OnErr result (vec_capacity out.old
        < vec_len out.old + length (value_text line number value.now)) }
{
    let mut tail = Tail::new();
    put_value(value, &mut tail);
    tail.number(number);
    tail.digits(line);
    tail.append_to(out)
}

/// Puts a value in front of a line's end.
#[inline(always)]
fn put_value(value: &Value, tail: &mut Tail)
    requires { tail.old ≡ 10 ∷ [] }
    ensures value { tail.new ≡ spaced (value_words value.now) }
    ensures short { length tail.new ≤ 85 }
{
    match *value {
        Value::Nothing => {}
        Value::Byte(byte) => tail.hex(u64::from(byte), 1),
        // The widths of a guest's driver are apart: their digits are written without a test a byte.
        Value::Word { width: 8, value } => tail.hex(value, 8),
        Value::Word { width: 4, value } => tail.hex(value, 4),
        Value::Word { width, value } => tail.hex(value, usize::from(width.min(8))),
        Value::Counts(counts) => {
            tail.number(counts.lost);
            tail.number(counts.queue);
            tail.number(counts.rises);
            tail.number(counts.due);
        }
        Value::Wall { version, sec, nsec } => {
            tail.number(u64::from(nsec));
            tail.number(u64::from(sec));
            tail.number(u64::from(version));
        }
        Value::Next(None) => tail.word(b"none"),
        Value::Next(Some(t)) => tail.number(t),
    }
}

/// The line of a timer's messages: the nanosecond of the first, the timer, the processor and the vector that each goes
/// to, how many they are, and the nanoseconds from one to the next.
#[tactic(auto, unfolding(crate::specs::Text::msg_text))]
pub fn msg_line(sent: &Sent, out: &mut Vec<u8>) -> Result<(), NoMemory>
    ensures ok { OnOk result (out.new.items ≡ out.old.items ++ msg_text sent.now) }
    ensures err { OnErr result (out.new.items ≡ out.old.items) }
    ensures full { OnErr result (vec_capacity out.old
        < vec_len out.old + length (msg_text sent.now)) }
{
    let Sent { burst, to } = *sent;
    let mut tail = Tail::new();
    tail.number(burst.every);
    tail.number(burst.count);
    tail.hex(u64::from(to.vector), 1);
    tail.number(u64::from(to.cpu));
    tail.number(u64::from(burst.timer));
    tail.number(burst.first);
    tail.text(b"msg");
    tail.append_to(out)
}
