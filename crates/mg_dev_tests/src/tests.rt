//! What no clause says: that calls succeed where memory is ample, what fault lines read like, and what the store of the
//! system does on real files. Its streams are tried by the black-box suite.
use crate::stores::{fails, keeps_a_file};
use mg_defs::Stream;
use mg_dev::*;
use mg_host::HostStore;
use mg_mem::*;
use std::alloc::{AllocError, Global};
use std::fs;
use std::test::Fail;

const TEXT: FileRef<'_> = FileRef {
    base: "mg_dev_set",
    part: Part::Text,
};

// A file by its whole name.
fn plain(name: &str) -> FileRef<'_> {
    FileRef {
        base: name,
        part: Part::Plain,
    }
}

// Whether a store in memory keeps a file, counts its calls and the reads of a part, and fails from a call on.
fn memory_keeps_a_file(alloc: Global) -> bool {
    let mut store = MemStore::new(alloc);
    let is_kept = keeps_a_file(&mut store, &TEXT);
    let is_counted = store.calls() == 11 && store.reads_of(Part::Text) == 5;
    store.fail_from(11);
    is_kept && is_counted && fails(&mut store, &TEXT)
}

// The same of one that never fails.
fn sure_memory_keeps_a_file(alloc: Global) -> bool {
    let mut store = SureStore::new(alloc);
    keeps_a_file(&mut store, &TEXT) && store.calls() == 11 && store.reads_of(Part::Text) == 5
}

#[test]
fn stores_in_memory_keep_files(rt: HostRuntime) -> Result<(), Fail> {
    assert!(rt; memory_keeps_a_file(rt.alloc()));
    assert!(rt; sure_memory_keeps_a_file(rt.alloc()));
    Ok(())
}

// Whether each call fails at a directory, and an append at a full device and below no directory.
fn fails_where_it_must<S: Store>(store: &mut S) -> bool {
    fails(store, &plain("mg_dev_directory"))
        && store.append(&plain("/dev/full"), b"a").is_err()
        && store.append(&plain("mg_dev_missing/file"), b"a").is_err()
}

#[test]
fn a_real_store_keeps_files_and_fails_where_it_must(rt: HostRuntime) -> Result<(), Fail> {
    fs::create_dir(&rt, "mg_dev_directory")?;
    let mut store = HostStore::new(rt.alloc(), rt.clone()?);
    assert!(rt; keeps_a_file(&mut store, &TEXT));
    assert!(rt; fails_where_it_must(&mut store));
    Ok(())
}

const BAD: Bad = Bad {
    part: Part::Text,
    at: 0,
    low: 2,
    high: 2,
    found: 1,
};

/// A fault of each kind.
const FAULTS: [Fault; 16] = [
    Fault::Usage,
    Fault::StoreFault,
    Fault::ReadFault,
    Fault::WriteFault,
    Fault::NotBuilt,
    Fault::Damaged(BAD),
    Fault::NoCollection,
    Fault::TooLarge {
        size: 4_294_967_296,
        most: 4_294_967_295,
    },
    Fault::TooManyDocuments,
    Fault::TooManyPieces {
        stream: Stream::Others,
    },
    Fault::Changed {
        what: What::Pairs,
        first: 3,
        second: 4,
    },
    Fault::Memory,
    Fault::NameClash { part: Part::MergeA },
    Fault::InputTooLong,
    Fault::SameName,
    Fault::TooManyRotations { count: 134_217_729 },
];

/// Their lines, one after the other.
const LINES: &str = "mg: the words are not understood
mg: the store failed
mg: the input could not be read
mg: the output could not be written
mg: nothing is built under this name
mg: damaged: part text at 0: found 1, wanted 2 to 2
mg: there is no such collection
mg: the collection has 4294967296 bytes, more than 4294967295
mg: more than 16777216 documents
mg: more than 4194304 distinct non-words
mg: the collection changed while it was read: pairs was 3, then 4
mg: out of memory
mg: the collection has the name of part mergea
mg: the input is longer than 4294967296 bytes
mg: both names are the same
mg: the terms have 134217729 rotations, more than 134217728
";

// Whether the faults have these lines. They are put one after the other.
fn have_lines(alloc: Global, faults: &[Fault], lines: &str) -> Result<bool, PutErr> {
    let mut out = SureSink::new(alloc);
    for fault in faults {
        put_fault_line(&mut out, fault)?;
    }
    Ok(out.bytes() == lines.as_bytes())
}

/// How some faults print for a programmer: one of each kind of fields.
const DEBUGGED: &str = "Usage
Damaged(Bad { part: Text, at: 0, low: 2, high: 2, found: 1 })
TooLarge { size: 4294967296, most: 4294967295 }
TooManyPieces { stream: Others }
Changed { what: Pairs, first: 3, second: 4 }
NameClash { part: MergeA }
TooManyRotations { count: 134217729 }
";

// Whether the faults print so. They print one after the other.
fn print_so(alloc: Global, faults: &[Fault], wanted: &str) -> Result<bool, AllocError> {
    let mut printed = String::new(alloc);
    for fault in faults {
        let line = format!(in alloc; "{fault:?}\n")?;
        printed.push_str(line.as_str())?;
    }
    Ok(printed.as_str() == wanted)
}

// Its `Debug` is written by hand.
#[test]
fn faults_print_for_a_programmer(rt: HostRuntime) -> Result<(), Fail> {
    let some = [
        FAULTS[0], FAULTS[5], FAULTS[7], FAULTS[9], FAULTS[10], FAULTS[12], FAULTS[15],
    ];
    assert!(rt; print_so(rt.alloc(), &some, DEBUGGED)?);
    Ok(())
}

#[test]
fn faults_have_their_lines(rt: HostRuntime) -> Result<(), Fail> {
    assert!(rt; have_lines(rt.alloc(), &FAULTS, LINES)?);
    Ok(())
}
