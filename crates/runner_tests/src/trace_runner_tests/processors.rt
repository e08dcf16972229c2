//! Races of several processors, of traces that have one order: in each phase one of them makes accesses, and the others read
//! pages, which then stay the same. So a race prints what its replay prints.
use super::races::expect_replay;
use std::alloc::{AllocError, Global};
use std::test::Fail;

/// Records of one processor, each from that format on: counter 0, timer 0 of the HPET on line 20, the MC146818's periodic
/// interrupt, processor 0's local APIC timer, and timer 1 of the HPET, which sends messages.
const DEVICES: &[(u8, &str)] = &[
    (1, "out 43 34"),
    (1, "out 40 9c"),
    (1, "out 40 2e"),
    (1, "hw 100 8 284c"),
    (1, "hw 108 8 186a0"),
    (1, "hw 108 8 186a0"),
    (1, "out 70 b"),
    (1, "out 71 42"),
    (3, "wrmsr 83e b"),
    (3, "wrmsr 832 20030"),
    (3, "wrmsr 838 1000"),
    (5, "hw 130 8 fee0100000000045"),
    (5, "hw 120 8 404c"),
    (5, "hw 128 8 186a0"),
    (5, "hw 128 8 186a0"),
    (1, "hw 10 4 1"),
    (1, "clock 0"),
];

/// After 12 milliseconds, in which all of them have ticks.
const TICKS: &[(u8, &str)] = &[
    (1, "step"),
    (1, "ack 0"),
    (1, "in 40"),
    (1, "in 71"),
    (1, "counts pit"),
    (2, "rose 0"),
    (3, "counts apic0"),
    (3, "eoi"),
    (4, "hv"),
    (1, "clock 0"),
];

/// After a move.
const MOVED: &[(u8, &str)] = &[
    (1, "step"),
    (1, "counts hpet0"),
    (1, "next"),
    (1, "clock 0"),
];

/// A phase of a race: the records of one processor, at a count, and the record that ends it, of the last processor.
#[derive(Clone, Copy)]
struct Phase<'a> {
    cpu: u8,
    count: u64,
    records: &'a [(u8, &'a str)],
    end: &'a str,
}

impl Phase<'_> {
    /// Adds the phase to a trace. Its processors follow one another, as a race prints them.
    fn add_to(
        &self,
        alloc: Global,
        format: u8,
        cpus: u8,
        trace: &mut Vec<u8>,
    ) -> Result<(), AllocError> {
        for cpu in 0..cpus {
            if cpu == self.cpu {
                self.add_records(alloc, format, trace)?;
            } else {
                let page = format!(in alloc; "page {cpu}")?;
                add(alloc, cpu, self.count, &page, trace)?;
                if format >= 4 {
                    add(alloc, cpu, self.count, "hv", trace)?;
                }
            }
        }
        add(alloc, cpus.saturating_sub(1), self.count, self.end, trace)
    }

    /// Adds the records that its processor has in this format.
    fn add_records(
        &self,
        alloc: Global,
        format: u8,
        trace: &mut Vec<u8>,
    ) -> Result<(), AllocError> {
        for &(since, words) in self.records {
            if since <= format {
                add(alloc, self.cpu, self.count, words, trace)?;
            }
        }
        Ok(())
    }
}

/// Adds a record to a trace.
fn add(
    alloc: Global,
    cpu: u8,
    count: u64,
    words: &str,
    trace: &mut Vec<u8>,
) -> Result<(), AllocError> {
    let record = format!(in alloc; "{cpu} {count} {words}\n")?;
    trace.extend_from_slice(record.as_bytes())
}

/// A trace in which each processor enables its page in a phase of its own, and then all have records in three phases.
fn one_order(alloc: Global, format: u8, cpus: u8) -> Result<Vec<u8>, AllocError> {
    let header = format!(in alloc; "clockboard {format}\nguest 2000000\ncpus {cpus}\nbegin\n")?;
    let mut trace = Vec::from_slice(alloc, header.as_bytes())?;
    for cpu in 0..cpus {
        let page = format!(in alloc; "{cpu} 9 wrmsr 4b564d01 1\n{cpu} 9 move 1000000 9 1\n")?;
        trace.extend_from_slice(page.as_bytes())?;
    }
    if format >= 4 {
        trace.extend_from_slice(b"0 9 wrmsr 40000021 1\n0 9 save\n")?;
    }
    let phases = [
        (0, 9, DEVICES, "save"),
        (cpus / 2, 12_000_009, TICKS, "move 3000000 77 5000000"),
        (cpus.saturating_sub(1), 40_000_077, MOVED, "save"),
    ];
    for (cpu, count, records, end) in phases {
        let phase = Phase {
            cpu,
            count,
            records,
            end,
        };
        phase.add_to(alloc, format, cpus, &mut trace)?;
    }
    trace.extend_from_slice(b"end\n")?;
    Ok(trace)
}

/// Each processor has a thread in three of the phases. Format 1 has up to 16 processors.
#[test]
fn races_of_3_16_and_64_processors(rt: HostRuntime) -> Result<(), Fail> {
    for (format, most) in [(1, 16), (2, 64), (3, 64), (4, 64), (5, 64)] {
        for cpus in [3, 16, 64] {
            if cpus <= most {
                let trace = one_order(rt.alloc(), format, cpus)?;
                expect_replay(&rt, &["race", "--state"], &["replay", "--state"], &trace)?;
            }
        }
    }
    Ok(())
}

/// More phases than start threads, each with reads of three processors.
#[test]
fn a_race_of_2000_moves(rt: HostRuntime) -> Result<(), Fail> {
    let mut trace = Vec::from_slice(rt.alloc(), b"clockboard 1\ncpus 3\nbegin\n")?;
    for _ in 0..2_000 {
        trace.extend_from_slice(
            b"0 9 page 0\n0 9 step\n1 9 page 1\n2 9 page 2\n1 9 move 1000000 9 1\n",
        )?;
    }
    trace.extend_from_slice(b"end\n")?;
    expect_replay(&rt, &["race"], &["replay"], &trace)?;
    Ok(())
}
