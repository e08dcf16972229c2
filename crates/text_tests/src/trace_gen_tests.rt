//! Whole texts, in pieces of any size. The expected ones were worked out by a plain program apart from this one.
use crate::checks::{holds, same};
use board_io::{Failed, Source};
use std::process::Abort;
use trace_gen::{CPUS_MAX, GenSource, Generator, RECORDS_MAX};

/// Twenty records of three processors, of the greatest key.
const TWENTY: &[u8] = b"clockboard 1\nguest 2000000\ncpus 3\nbegin\n\
0 0 wrmsr 4b564d01 1\n1 0 wrmsr 4b564d01 1\n2 0 wrmsr 4b564d01 1\n0 0 hw 10 4 1\n0 52488 out 43 d8\n\
1 84831 out 70 a3\n2 87508 hw 108 8 f2\n0 105110 out 40 33\n1 137974 out 61 18\n2 171961 ack 0\n\
0 264846 step\n1 297893 ack 0\n2 382333 clock 0\n0 471865 in 61\n1 566748 step\n2 628910 in 40\n\
0 671870 clock 0\n1 724408 ack 8\n2 819686 ack 0\n0 888566 out 61 62\n1 985167 ack 8\n2 1052979 out 61 fa\n\
0 1135157 refresh 0\n1 1138759 step\nend\n";

/// Takes the trace of that key from its source, in pieces of at most `piece` bytes, and compares its text.
fn expect(rt: &impl Abort, piece: usize) -> Result<(), Failed> {
    let mut source = GenSource::new(u64::MAX, 20, 3);
    let mut bytes = [0; 4096];
    let into = &mut bytes[..piece.clamp(1, 4096)];
    let mut rest = TWENTY;
    for _ in 0..1000 {
        let n = source.take(into)?;
        assert!(rt; n <= rest.len());
        same(rt, piece, &into[..n], &rest[..n]);
        rest = &rest[n..];
    }
    holds(rt, piece, rest.is_empty());
    Ok(())
}

#[test]
fn pieces_of_any_size(rt: HostRuntime) {
    for piece in [1, 7, 64, 4096] {
        same(&rt, piece, expect(&rt, piece), Ok(()));
    }
}

/// The length of the longest trace of a key, and the FNV-1a hash of its bytes.
#[test]
fn the_longest_trace(rt: HostRuntime) {
    let mut generator = Generator::new(7, RECORDS_MAX, CPUS_MAX);
    let mut bytes = [0; 4096];
    let mut length: u64 = 0;
    let mut hash: u64 = 0xcbf2_9ce4_8422_2325;
    for _ in 0..2000 {
        let n = generator.fill(&mut bytes);
        length = length.wrapping_add(n as u64);
        for byte in &bytes[..n] {
            hash = (hash ^ u64::from(*byte)).wrapping_mul(0x0100_0000_01b3);
        }
    }
    same(&rt, "length", length, 4_316_920);
    same(&rt, "hash", hash, 0xcf12_012f_e118_5291);
}
