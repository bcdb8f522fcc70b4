//! Generated texts beside those of an independent reference, and the pieces that they come in.
use mg_dev::{PutErr, Sink};
use mg_gen::{make_collection, make_session};
use mg_mem::{MemSink, SureSink};
use std::alloc::{AllocError, Global};
use std::test::Fail;

/// A text that is made.
#[derive(Clone, Copy)]
enum Made {
    Collection { seed: u64, docs: u32 },
    Session { seed: u64 },
}

/// Texts, with how many bytes the reference's have, and their sum.
static TEXTS: [(Made, usize, u64); 3] = [
    (
        Made::Collection { seed: 0, docs: 1 },
        145,
        0xc444_0526_83b4_8732,
    ),
    (
        Made::Collection {
            seed: 7,
            docs: 2000,
        },
        484_166,
        0x40bc_1fe2_68a2_10d1,
    ),
    (Made::Session { seed: 7 }, 1334, 0x34b3_6d47_1b77_49aa),
];

/// A sum that tells texts apart: FNV-1a of 64 bits.
fn sum_of(bytes: &[u8]) -> u64 {
    let mut sum = 0xcbf2_9ce4_8422_2325u64;
    for byte in bytes {
        sum = (sum ^ u64::from(*byte)).wrapping_mul(0x100_0000_01b3);
    }
    sum
}

/// Makes a text.
fn make<O: Sink>(text: Made, out: &mut O) -> Result<(), PutErr> {
    match text {
        Made::Collection { seed, docs } => make_collection(seed, docs, out),
        Made::Session { seed } => make_session(seed, out),
    }
}

/// How many bytes a text has, and their sum; none where it is not made.
fn seen(alloc: Global, text: Made) -> (usize, u64) {
    let mut out = SureSink::new(alloc);
    let made = make(text, &mut out);
    if made.is_err() {
        return (0, 0);
    }
    (out.bytes().len(), sum_of(out.bytes()))
}

#[test]
fn texts_are_those_of_the_reference(rt: HostRuntime) {
    for (text, size, sum) in &TEXTS {
        assert!(rt; seen(rt.alloc(), *text) == (*size, *sum));
    }
}

/// How many bytes of a hundred documents a sink has that keeps ten bytes of its third put.
fn kept(alloc: Global) -> Result<usize, AllocError> {
    let mut out = MemSink::new(alloc);
    out.fail_at(2, 10)?;
    let refused = make_collection(7, 100, &mut out).is_err();
    Ok(if refused { out.bytes().len() } else { 0 })
}

#[test]
fn pieces_have_some_thousand_bytes(rt: HostRuntime) -> Result<(), Fail> {
    let kept = kept(rt.alloc())?;
    assert!(rt; 10_000 < kept && kept < 20_000);
    Ok(())
}
