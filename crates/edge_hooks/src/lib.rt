//! Who gets the rise of an interrupt line, and who gets a timer's message: hooks that a monitor
//! stores, and the deliveries that they give.
//!
//! A hook is a closure from an edge, or from a message, to a processor and a vector. It must answer
//! at each edge of the six lines, and at each message, with a processor of the board and a vector
//! from 16 on, and always alike at the same one. Vectors below 16 are no interrupts (Intel SDM,
//! volume 3, "Valid Interrupt Vectors"); that a fall is never delivered is this project's own
//! choice. Nothing here takes memory.
//!
//! ```text
//! let hooks = Hooks::new(1, |edge: Edge| Delivery { cpu: 0, vector: 0x30 + edge.line });
//! let deliveries = hooks.deliver(&edges); // one for each rise among the edges, in order
//! ```
#![tactic(auto)]

mod deliveries;
mod hooks;
mod messages;
mod sent;

pub use deliveries::{Delivery, DeliveryList};
pub use hooks::Hooks;
pub use messages::{Message, MessageHooks};
pub use sent::{Sent, SentList};
