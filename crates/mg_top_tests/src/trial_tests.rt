//! Trials over a store in memory. The numbers are those of another implementation.
ghost use Rattle.std.specs.Prelude.{◌≡◌, Some};
ghost use Rattle.mg_dev.specs.Files.{no_files};

use mg_dev::{Fault, Part, Store};
use mg_mem::{MemStore, SureSink};
use mg_top::trial;
use std::alloc::{AllocError, Global};
use std::test::Fail;

/// What a trial of seed 7 and five documents prints.
static FIVE: &[u8] =
    b"documents 5\ncollection 1019 bytes\nterms 130\noccurrences 153\nreplies 192 bytes\ndecode same\nqueries 40 same\n";

/// How the trial of seed 7 and five documents ends, and whether it prints just this.
fn ended<S: Store>(alloc: Global, store: &mut S, printed: &[u8]) -> (Result<(), Fault>, bool)
    requires { S.files store.old ≡ Some no_files }
{
    let mut out = SureSink::new(alloc);
    let status = trial(alloc, store, 7, 5, &mut out);
    (status, out.bytes() == printed)
}

/// Whether each part that a session asks was read, and the one page of the collection twice: the build reads it, and the
/// scan reads it too.
fn is_asked(store: &MemStore) -> bool {
    let mut asked = store.reads_of(Part::Plain) >= 2;
    for part in [Part::Text, Part::Lex, Part::Post, Part::Weights] {
        asked &= store.reads_of(part) >= 1;
    }
    asked
}

/// Whether the set was built in the pool that a build has where none is asked for: its head tells how many occurrences go into
/// a run.
fn has_usual_pool(store: &MemStore) -> bool {
    match store.file("set.head") {
        Some(head) => head.get(24..28) == Some(b"\0\x15UU".as_slice()),
        None => false,
    }
}

/// Whether the trial prints its lines, and asks what it built in the usual pool.
fn is_tried(alloc: Global) -> bool {
    let mut store = MemStore::new(alloc);
    let (status, is_printed) = ended(alloc, &mut store, FIVE);
    status.is_ok() && is_printed && is_asked(&store) && has_usual_pool(&store)
}

#[test]
fn a_trial_asks_what_it_built(rt: HostRuntime) {
    assert!(rt; is_tried(rt.alloc()));
}

/// Whether the trial tells that this call of its store failed, and prints nothing.
fn is_failure_told(alloc: Global, call: u64) -> Result<bool, AllocError> {
    let mut store = MemStore::new(alloc);
    store.fail_at(call, 0)?;
    let (status, is_silent) = ended(alloc, &mut store, b"");
    Ok(matches!(status, Err(Fault::StoreFault)) && is_silent)
}

#[test]
fn a_trial_tells_that_its_store_failed(rt: HostRuntime) -> Result<(), Fail> {
    for call in [0, 1, 20, 60] {
        assert!(rt; is_failure_told(rt.alloc(), call)?);
    }
    Ok(())
}
