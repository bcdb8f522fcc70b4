//! What sessions over the set of three documents print, how they end, and how often parts are read.
use mg_dev::{Fault, Part, Sink, Source, Store};
use mg_mem::{SureSink, SureSource, SureStore};
use mg_session::{serve, serve_phrase, serve_wild};
use std::alloc::{AllocError, Global};

// The parts of "the cat sat", "the dog" and "Cat, cat & dog!", each document with its line's end.
static THREE: [(&str, &[u8]); 10] = [
    (
        "set.head",
        b"MGROWv2\n\0\0\0\x03\0\0\0\x05\0\0\0\x05\0\0\0\x04\0\x15UU\0\0\0\0\0\0\0\0\0\0\0'\0\0\0\0\0\0\0\x08\0\0\0\x01\0\0\0\0\0\0\0\0\0\0\0\x08\0\0\0\0\0\0\0\x04\0\0\0\0\0\0\0\x04",
    ),
    (
        "set.words",
        b"\x03Cat\x03\0\x03cat\x02\0\x03dog\x02\0\x03sat\x03\x03the\x02",
    ),
    (
        "set.nonwords",
        b"\x01\n\x02\0\x01 \x02\x01\x02& \x03\0\x02!\n\x03\x02, \x02",
    ),
    ("set.text", b"\xc71@\xbd \xc0\xd1\x10"),
    (
        "set.places",
        b"\0\0\0\0\0\0\0\0\0\0\0\0\0\0\0\x03\0\0\0\0\0\0\0\x05\0\0\0\0\0\0\0\x08",
    ),
    (
        "set.lex",
        b"\x03cat\0\0\0\x02\0\0\0\0\0\0\0\0\0\0\0\0\0\x03dog\0\0\0\x02\0\0\0\0\0\0\0\x01\0\0\0\x01\0\x03sat\0\0\0\x01\0\0\0\0\0\0\0\x02\0\0\0\x02\0\x03the\0\0\0\x02\0\0\0\0\0\0\0\x03\0\0\0\x03",
    ),
    ("set.lexat", b"\0\0\0\0"),
    ("set.post", b"(\x80\0\0"),
    (
        "set.skip",
        b"\0\0\0\0\0\0\0\x03\0\0\0\0\0\0\0\0\0\0\0\0\0\0\0\x03\0\0\0\0\0\0\0\0\0\0\0\0\0\0\0\x01\0\0\0\0\0\0\0\0\0\0\0\0\0\0\0\x02\0\0\0\0\0\0\0\0",
    ),
    ("set.weights", b"\0\0\x01\xbb\0\0\x01j\0\0\x02<"),
];

/// What the lines of a session are.
#[derive(Clone, Copy)]
pub(crate) enum Kind {
    Query,
    Phrase,
    Pattern,
}

/// Whether a session prints what it is to print, and how often parts were read.
#[derive(Clone, Copy)]
pub(crate) struct Seen {
    pub(crate) printed: bool,
    pub(crate) head: u64,
    pub(crate) models: [u64; 2],
    pub(crate) texts: [u64; 2],
    pub(crate) lex: u64,
    pub(crate) weights: u64,
    pub(crate) run: u64,
}

/// Serves a session over a set.
fn serve_kind<S: Store, I: Source, O: Sink>(
    alloc: Global,
    kind: Kind,
    store: &mut S,
    input: &mut I,
    out: &mut O,
) -> Result<(), Fault> {
    match kind {
        Kind::Query => serve(alloc, store, "set", input, out),
        Kind::Phrase => serve_phrase(alloc, store, "set", input, out),
        Kind::Pattern => serve_wild(alloc, store, "set", input, out),
    }
}

/// Whether a session ends well and prints just this.
fn prints<S: Store>(
    alloc: Global,
    kind: Kind,
    store: &mut S,
    given: &[u8],
    wanted: &[u8],
) -> Result<bool, AllocError> {
    let mut input = SureSource::new(alloc, given, 7)?;
    let mut out = SureSink::new(alloc);
    let status = serve_kind(alloc, kind, store, &mut input, &mut out);
    Ok(status.is_ok() && out.bytes() == wanted)
}

/// A store with the three documents.
fn three(alloc: Global) -> Result<SureStore, AllocError> {
    let mut store = SureStore::new(alloc);
    for (name, bytes) in &THREE {
        store.put_file(name, bytes)?;
    }
    Ok(store)
}

/// What is seen of a session over them, which is to print just this.
pub(crate) fn serve_three(
    alloc: Global,
    kind: Kind,
    given: &[u8],
    wanted: &[u8],
) -> Result<Seen, AllocError> {
    let mut store = three(alloc)?;
    let printed = prints(alloc, kind, &mut store, given, wanted)?;
    Ok(Seen {
        printed,
        head: store.reads_of(Part::Head),
        models: [store.reads_of(Part::Words), store.reads_of(Part::Nonwords)],
        texts: [store.reads_of(Part::Text), store.reads_of(Part::Places)],
        lex: store.reads_of(Part::Lex),
        weights: store.reads_of(Part::Weights),
        run: store.reads_of(Part::Run),
    })
}
