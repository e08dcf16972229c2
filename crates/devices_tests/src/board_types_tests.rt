//! What no clause says of the types of a board: the ranges as the hardware has them, and the defaults.

use crate::checks::{holds, same};
use board_types::{APIC_FORMAT, Access, HV_FORMAT, LAST_FORMAT, Reply, Setup, TickSource, Value};

/// Ports that are there, and their neighbours.
#[test]
fn ports_of_the_board_alone(rt: HostRuntime) {
    for port in [0x40u8, 0x41, 0x42, 0x43, 0x61, 0x70, 0x71] {
        holds(&rt, port, Access::PortIn { port }.legal(1, 1));
    }
    for port in [0u8, 0x3f, 0x44, 0x60, 0x62, 0x6f, 0x72] {
        holds(&rt, port, !Access::PortIn { port }.legal(1, 1));
    }
}

fn counts(from: TickSource) -> Access {
    Access::CountsOf { from }
}

fn read(msr: u32) -> Access {
    Access::MsrRead { msr }
}

/// The first format that has an access, on a board of one processor; 6 where none has it, as MSR_KVM_STEAL_TIME.
#[test]
fn accesses_of_a_later_format(rt: HostRuntime) {
    let rows = [
        (read(0x4b56_4d01), 1),
        (read(0x4b56_4d03), 6),
        (read(0x832), APIC_FORMAT),
        (read(0x838), APIC_FORMAT),
        (read(0x839), APIC_FORMAT),
        (read(0x83e), APIC_FORMAT),
        (read(0x6e0), APIC_FORMAT),
        (read(0x80b), 6),
        (read(0x4000_0020), HV_FORMAT),
        (read(0x4000_0021), HV_FORMAT),
        (read(0x4000_0000), 6),
        (Access::Rose { line: 23 }, 2),
        (Access::Rose { line: 1 }, 6),
        (Access::Eoi, APIC_FORMAT),
        (counts(TickSource::Hpet(2)), 1),
        (counts(TickSource::Hpet(7)), 2),
        (counts(TickSource::Hpet(8)), 6),
        (counts(TickSource::Apic(0)), APIC_FORMAT),
        (counts(TickSource::Apic(1)), 6),
        (
            Access::HpetRead {
                offset: 0x400,
                width: 1,
            },
            6,
        ),
    ];
    for (access, first) in rows {
        for format in 1..6u8 {
            same(
                &rt,
                (access, format),
                access.legal(1, format),
                first <= format,
            );
        }
    }
}

/// What a caller that says nothing gets, and a reply before its access.
#[test]
fn defaults(rt: HostRuntime) {
    let setup = Setup::by_default(LAST_FORMAT);
    let fields = (setup.format, setup.cpus, setup.anchor.khz);
    same(&rt, "setup", fields, (LAST_FORMAT, 1, 1_000_000));
    let reply = Reply::empty();
    same(
        &rt,
        "reply",
        (reply.number, reply.value),
        (0, Value::Nothing),
    );
    holds(
        &rt,
        "lists",
        reply.edges.is_empty() && reply.bursts.is_empty(),
    );
}
