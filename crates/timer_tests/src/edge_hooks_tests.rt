//! Hooks on rises of lines and on messages of timers: what is delivered, to whom, and in which order.

ghost use Rattle.std.specs.Prelude.{◌≡◌};

use crate::checks::{holds, same};
use edge_hooks::{Delivery, Hooks, Message, MessageHooks, Sent};
use irq_edges::{Burst, BurstList, Edge, EdgeList};

fn edge(line: u8, up: bool) -> Edge
    ensures { result ≡ record { at = 7; line = line; up = up } }
{
    Edge { at: 7, line, up }
}

#[test]
fn rises_are_delivered_in_order_and_falls_are_not(rt: HostRuntime) {
    let mut edges = EdgeList::new();
    edges.push(edge(8, true));
    edges.push(edge(0, true));
    edges.push(edge(8, false));
    edges.push(edge(23, true));
    // line 0 to processor 0, each other line to processor 1
    let hooks = Hooks::new(
        2,
        |edge: Edge| Delivery {
            cpu: edge.line.min(1),
            vector: 0x30 + edge.line.min(23),
        },
    );
    let deliveries = hooks.deliver(&edges);
    let wanted = [
        Delivery {
            cpu: 1,
            vector: 0x38,
        },
        Delivery {
            cpu: 0,
            vector: 0x30,
        },
        Delivery {
            cpu: 1,
            vector: 0x47,
        },
    ];
    same(&rt, "deliveries", deliveries.as_slice(), wanted.as_slice());
    same(
        &rt,
        "length",
        (deliveries.len(), deliveries.is_empty()),
        (3, false),
    );
    holds(&rt, "no edges", hooks.deliver(&EdgeList::new()).is_empty());
}

/// The processor in bits 19 to 12 of the address, where there is such a one, and the vector in bits
/// 7 to 0 of the data, where it is one.
#[test]
fn each_burst_is_sent_with_its_message(rt: HostRuntime) {
    let burst = Burst {
        timer: 0,
        first: 1000,
        count: 3,
        every: 1000,
        address: 0xfee0_1000,
        data: 0x4041,
    };
    let single = Burst {
        timer: 5,
        count: 1,
        every: 0,
        address: 0xfee0_3000,
        data: 0x0f,
        ..burst
    };
    let mut bursts = BurstList::new();
    bursts.push(burst);
    bursts.push(single);
    let hooks = MessageHooks::new(3, |message: Message| {
        let cpu = (message.address / 0x1000 % 0x100) as u8;
        let vector = (message.data % 0x100) as u8;
        Delivery {
            cpu: if cpu < 3 { cpu } else { 0 },
            vector: if vector < 16 { 0x30 } else { vector },
        }
    });
    let sent = hooks.send(&bursts);
    let wanted = [
        Sent {
            burst,
            to: Delivery {
                cpu: 1,
                vector: 0x41,
            },
        },
        Sent {
            burst: single,
            to: Delivery {
                cpu: 0,
                vector: 0x30,
            },
        },
    ];
    same(&rt, "sent", sent.as_slice(), wanted.as_slice());
    same(&rt, "length", (sent.len(), sent.is_empty()), (2, false));
    holds(&rt, "no bursts", hooks.send(&BurstList::new()).is_empty());
}
