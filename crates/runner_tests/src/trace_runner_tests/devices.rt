//! What the devices print after their records.
use super::expect_text;
use std::alloc::{AllocError, Global};
use std::process::Abort;
use std::sync::Wait;
use std::test::Fail;
use std::thread::Threads;

/// A trace that is replayed, and what it prints.
#[derive(Clone, Copy)]
struct Replayed {
    name: &'static str,
    trace: &'static [u8],
    text: &'static [u8],
}

/// Replays each trace, and compares what it prints.
fn expect_replays<R: Threads + Wait + Sync + Abort + Alloc<A = Global>>(
    rt: &R,
    traces: &[Replayed],
) -> Result<(), AllocError> {
    for case in traces {
        expect_text(rt, case.name, &["replay"], case.trace, case.text)?;
    }
    Ok(())
}

/// Traces of the timer behind its ports.
const TIMER: [Replayed; 6] = [
    Replayed {
        name: "mode 0 with count 1",
        trace: b"clockboard 1\nbegin\n0 0 out 43 10\n0 0 out 40 01\n0 2000 step\nend\n",
        text: b"3 1\n4 2\nedge 1677 0 up\n5 3\nfinal 2000 3 0 0\n",
    },
    Replayed {
        name: "mode 3 with the odd count 5",
        trace: b"clockboard 1\nbegin\n0 0 out 43 36\n0 0 out 40 05\n0 0 out 40 00\n0 10000 step\n0 10000 in 40\nend\n",
        text: b"3 1\n4 2\n5 3\nedge 5029 0 up\n6 4\n7 5 04\nfinal 10000 5 0 0\n",
    },
    Replayed {
        name: "a latched count, and then a read-back of status and count, which leaves the count that is latched",
        trace: b"clockboard 1\nbegin\n0 0 out 43 34\n0 0 out 40 04\n0 0 out 40 00\n0 1000 out 43 00\n0 2000 out 43 c2\n0 2000 in 40\n0 2000 in 40\n0 2000 in 40\n0 2000 in 40\nend\n",
        text: b"3 1\n4 2\n5 3\n6 4\n7 5\n8 6 b4\n9 7 04\n10 8 00\n11 9 03\nfinal 2000 9 0 -\n",
    },
    Replayed {
        name: "port 61h: the gate and the output of counter 2",
        trace: b"clockboard 1\nbegin\n0 0 out 61 01\n0 0 out 43 b4\n0 0 out 42 04\n0 0 out 42 00\n0 2000 out 42 06\n0 2000 out 42 00\n0 3500 in 61\n0 3500 out 61 00\n0 3500 in 61\n0 4500 out 61 01\n0 6000 in 42\n0 6000 in 42\n0 6000 in 61\nend\n",
        text: b"3 1\n4 2\n5 3\n6 4\n7 5\n8 6\n9 7 01\n10 8\n11 9 20\n12 10\n13 11 05\n14 12 00\n15 13 21\nfinal 6000 13 0 -\n",
    },
    Replayed {
        name: "count 0 is the greatest count, in binary",
        trace: b"clockboard 1\nbegin\n0 0 out 43 34\n0 0 out 40 00\n0 0 out 40 00\n0 2000 in 40\n0 2000 in 40\nend\n",
        text: b"3 1\n4 2\n5 3\n6 4 ff\n7 5 ff\nfinal 2000 5 0 -\n",
    },
    Replayed {
        name: "count 0 is the greatest count, in BCD",
        trace: b"clockboard 1\nbegin\n0 0 out 43 35\n0 0 out 40 00\n0 0 out 40 00\n0 2000 in 40\n0 2000 in 40\nend\n",
        text: b"3 1\n4 2\n5 3\n6 4 99\n7 5 99\nfinal 2000 5 0 -\n",
    },
];

#[test]
fn the_timer_behind_its_ports(rt: HostRuntime) -> Result<(), Fail> {
    expect_replays(&rt, &TIMER)?;
    Ok(())
}

/// Traces of all devices.
const DEVICES: [Replayed; 6] = [
    Replayed {
        name: "the clock's periodic ticks under the policy delay, and a read of register C that shows the second",
        trace: b"clockboard 1\nbegin\n0 0 out 70 0b\n0 0 out 71 42\n0 2000000 counts rtc\n0 2000000 out 70 0c\n0 2000000 in 71\n0 2000000 counts rtc\nend\n",
        text: b"3 1\n4 2\nedge 976563 8 up\n5 3 2 1 1 0\n6 4\nedge 2000000 8 down\nedge 2000000 8 up\n7 5 c0\n8 6 2 2 0 0\nfinal 2000000 6 0 8\n",
    },
    Replayed {
        name: "a periodic timer of 32 bits across the wrap",
        trace: b"clockboard 1\nbegin\n0 0 hw 100 8 294c\n0 0 hw 108 8 fffffff8\n0 0 hw 108 8 10\n0 0 hw f0 8 fffffff0\n0 0 hw 10 4 1\n0 450 counts hpet0\n0 450 hr 108 8\n0 450 hr f0 8\n0 450 hr 100 8\nend\n",
        text: b"3 1\n4 2\n5 3\n6 4\n7 5\nedge 80 20 up\n8 6 3 1 2 0\n9 7 0000000000000028\n10 8 000000010000001d\n11 9 00f000000000293c\nfinal 450 9 0 20\n",
    },
    Replayed {
        name: "legacy replacement while OUT of counter 0 is low",
        trace: b"clockboard 1\nbegin\n0 0 out 43 34\n0 0 out 40 04\n0 0 out 40 00\n0 0 hw 100 8 2804\n0 0 hw 108 8 64\n0 3500 hw 10 4 3\n0 5000 counts pit\n0 5000 counts hpet0\nend\n",
        text: b"3 1\n4 2\n5 3\n6 4\n7 5\n8 6\nedge 4500 0 up\n9 7 0 0 0 0\n10 8 1 1 0 0\nfinal 5000 8 0 0\n",
    },
    Replayed {
        name: "two processors read their clocks: the second one's page is behind, and the clamp isn't",
        trace: b"clockboard 1\nguest 2000000\ncpus 2\nbegin\n0 0 wrmsr 4b564d01 1\n1 0 wrmsr 4b564d01 1\n0 1000 clock 0\n1 900 page 1\n1 900 clock 1\nend\n",
        text: b"5 1\n6 2\n7 clock 1000 1000\n8 page 2 0 0 80000000 0 01 900\n9 clock 900 1000\nfinal 0 2 1000 -\n",
    },
    Replayed {
        name: "a line without a route goes to processor 0 with vector 30h and its number",
        trace: b"clockboard 1\nroute 8 0 40\nbegin\n0 0 out 43 10\n0 0 out 40 01\n0 2000 step\nend\n",
        text: b"4 1\n5 2\nedge 1677 0 up 0 30\n6 3\nfinal 2000 3 0 0\n",
    },
    Replayed {
        name: "format 2: eight timers",
        trace: b"clockboard 2\nbegin\n0 0 hr 0 8\n0 0 hr 1e0 8\nend\n",
        text: b"3 1 009896808086a701\n4 2 00f0000000002830\nfinal 0 2 0 -\n",
    },
];

#[test]
fn all_devices_after_their_records(rt: HostRuntime) -> Result<(), Fail> {
    expect_replays(&rt, &DEVICES)?;
    Ok(())
}
