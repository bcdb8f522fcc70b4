//! What no clause says: that sessions are answered, with one read of the collection, and why an answer or a load stops.
//! Most rows of sessions stand in the black-box suite.
use crate::devices::{Claims, Lacking};
use mg_defs::Settings;
use mg_dev::{Fault, Part, ShowErr, Store, What};
use mg_mem::{MemSink, MemSource, MemStore, SureStore};
use mg_plain::{PlainText, scan};
use std::alloc::{AllocError, Global};
use std::test::Fail;

const K: &[u8; 39] = b"the cat sat\n\x02the dog\n\x02Cat, cat & dog!\n\x02";

/// A word of one byte more than a query takes.
const LONG: [u8; 256] = [b'x'; 256];

/// Collections, sessions over them, and what is printed.
const SESSIONS: [(&[u8], &[u8], &[u8]); 4] = [
    (
        K,
        b"cat & !the\nCAT\n.set maxdocs 1\n!dog | dog\n.set mode count\ncat\n.quit\ndog\n",
        b"3\n= 1\n1\n3\n= 2\n1\n= 3\n= 2\n",
    ),
    (
        K,
        b".set query ranked\nthe cat\nDog & !zebra\n, )\n.set maxdocs 2\nthe cat\n.set mode count\nthe cat\n.set mode text\n.set maxdocs 1\ndog zebra\n",
        b"1 100005\n3 77451\n2 61191\n= 3\n2 61191\n3 38725\n= 2\n= 0\n1 100005\n3 77451\n= 3\n= 3\n-- 2 61191\nthe dog\n\x02\n= 2\n",
    ),
    (
        b"a b\x02c\x02B a\x02a b b\x02",
        b".set query ranked\na\nb c\n",
        b"1 56484\n3 56484\n4 35746\n= 3\n2 152064\n4 71493\n1 56484\n3 56484\n= 4\n",
    ),
    (
        b"\x02\x02",
        b"!x\n.set query ranked\nx\n",
        b"1\n2\n= 2\n= 0\n",
    ),
];

/// The number of a call that never comes.
const NEVER: u64 = u64::MAX;

/// A collection, a session over it, and what is printed.
type Session<'a> = (&'a [u8], &'a [u8], &'a [u8]);

/// How a session over a store ends whose read and whose put of these numbers fail; none where other bytes are printed.
fn ended(
    alloc: Global,
    store: &mut MemStore,
    (_, lines, printed): Session<'_>,
    read: u64,
    put: u64,
) -> Result<Option<Result<(), Fault>>, AllocError> {
    let mut input = MemSource::new(alloc, lines, 7)?;
    input.fail_at(read)?;
    let mut out = MemSink::new(alloc);
    out.fail_at(put, 1)?;
    let told = scan(alloc, store, "k", &mut input, &mut out);
    let is_so = out.bytes() == printed;
    Ok(if is_so { Some(told) } else { None })
}

/// The same over a store with the collection; none also where it is not read just once.
fn scanned(
    alloc: Global,
    session: Session<'_>,
    read: u64,
    put: u64,
) -> Result<Option<Result<(), Fault>>, AllocError> {
    let mut store = MemStore::new(alloc);
    store.put_file("k", session.0)?;
    let told = ended(alloc, &mut store, session, read, put)?;
    let is_so = store.reads_of(Part::Plain) == 1;
    Ok(if is_so { told } else { None })
}

/// Whether each session is printed.
fn are_printed(alloc: Global, sessions: &[Session<'_>]) -> Result<bool, AllocError> {
    for session in sessions {
        if scanned(alloc, *session, NEVER, NEVER)? != Some(Ok(())) {
            return Ok(false);
        }
    }
    Ok(true)
}

#[test]
fn sessions_are_printed_and_stop_for_their_cause(rt: HostRuntime) -> Result<(), Fail> {
    let alloc = rt.alloc();
    assert!(rt; are_printed(alloc, &SESSIONS)?);
    // The second read fails behind the first line, and the second put behind one byte.
    let told = scanned(alloc, (K, b"cat\ndog\n", b"1\n3\n= 2\n"), 1, NEVER)?;
    assert!(rt; told == Some(Err(Fault::ReadFault)));
    let told = scanned(alloc, (K, b"cat\ndog\n", b"1\n3\n= 2\n2"), NEVER, 1)?;
    assert!(rt; told == Some(Err(Fault::WriteFault)));
    Ok(())
}

/// Lines in a language, and what the output keeps that fails behind three bytes.
const REFUSED: [(bool, &[u8], &[u8]); 4] = [
    (false, b"cat", b"1\n3"),
    (false, b"cat ) dog", b"? s"),
    (true, b"cat", b"3 7"),
    (true, &LONG, b"? w"),
];

/// Whether an answer stops where its output fails, with just these bytes, and where its output lacks memory, once.
fn is_refused(
    alloc: Global,
    plain: &PlainText,
    (ranked, line, kept): (bool, &[u8], &[u8]),
) -> Result<bool, AllocError> {
    if line.len() > 1024 {
        return Ok(false);
    }
    let now = Settings {
        ranked,
        ..Settings::start()
    };
    let mut lacking = Lacking { lacks: 0 };
    let lacked = plain.answer(alloc, line, &now, &mut lacking);
    let mut failing = MemSink::new(alloc);
    failing.fail_at(0, 3)?;
    let failed = plain.answer(alloc, line, &now, &mut failing);
    let has_lacked = lacked == Err(ShowErr::Memory) && lacking.lacks == 1;
    Ok(has_lacked && failed == Err(ShowErr::Write) && failing.bytes() == kept)
}

/// Whether each of the answers is refused so.
fn are_refused(
    alloc: Global,
    plain: &PlainText,
    rows: &[(bool, &[u8], &[u8])],
) -> Result<bool, AllocError> {
    for row in rows {
        if !is_refused(alloc, plain, *row)? {
            return Ok(false);
        }
    }
    Ok(true)
}

#[test]
fn a_refused_answer_has_its_cause(rt: HostRuntime) -> Result<(), Fail> {
    let alloc = rt.alloc();
    let mut store = MemStore::new(alloc);
    store.put_file("k", K)?;
    let Ok(plain) = PlainText::load(alloc, &mut store, "k") else {
        return Err(Fail::from("not loaded"));
    };
    assert!(rt; are_refused(alloc, &plain, &REFUSED)?);
    Ok(())
}

/// Why a load stops; none where it does not.
fn cause<S: Store>(alloc: Global, store: &mut S, name: &str) -> Option<Fault> {
    PlainText::load(alloc, store, name).err()
}

#[test]
fn a_collection_too_large_or_cut_short_is_refused(rt: HostRuntime) -> Result<(), Fail> {
    let alloc = rt.alloc();
    let mut held = SureStore::new(alloc);
    held.put_file("k", K)?;
    let mut store = Claims { size: 40, held };
    let changed = Fault::Changed {
        what: What::Size,
        first: 40,
        second: 39,
    };
    assert!(rt; cause(alloc, &mut store, "k") == Some(changed));
    store.size = (1 << 28) + 1;
    let too_large = Fault::TooLarge {
        size: (1 << 28) + 1,
        most: 1 << 28,
    };
    assert!(rt; cause(alloc, &mut store, "k") == Some(too_large));
    assert!(rt; store.held.reads_of(Part::Plain) == 1);
    Ok(())
}
