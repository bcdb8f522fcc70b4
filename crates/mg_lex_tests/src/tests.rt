//! What no clause says: the bytes of real lexicons, that calls succeed, and where a damage is told. Failing stores stand with
//! the tools.
ghost use Rattle.std.specs.Prelude.{◌≡◌, ◌≤◌, ◌<◌, ◌^◌, ◌==◌, ◌||◌, List, [], OnOk, length, true};
ghost use Rattle.std.specs.Bool.{OnTrue};
ghost use Rattle.mg_defs.specs.Front.{is_below};
ghost use Rattle.mg_front.specs.Reading.{FrontFits};
ghost use Rattle.mg_lex.specs.Terms.{Term};
ghost use Rattle.mg_lex.specs.Writing.{TookTerms};

use mg_dev::{Part, PartErr, PutErr, Store};
use mg_layout::{Head, TermInfo};
use mg_lex::{Lex, LexWriter};
use mg_mem::SureStore;
use std::alloc::Global;
use std::test::Fail;

// What stands of the terms of "the cat sat", "the dog" and "Cat, cat & dog!".
const CAT: TermInfo = TermInfo {
    number: 0,
    docs: 2,
    post_at: 0,
    skip_at: 0,
};

const DOG: TermInfo = TermInfo {
    number: 1,
    docs: 2,
    post_at: 1,
    skip_at: 1,
};

const SAT: TermInfo = TermInfo {
    number: 2,
    docs: 1,
    post_at: 2,
    skip_at: 2,
};

const THE: TermInfo = TermInfo {
    number: 3,
    docs: 2,
    post_at: 3,
    skip_at: 3,
};

static TERMS: [(&[u8], TermInfo); 4] = [(b"cat", CAT), (b"dog", DOG), (b"sat", SAT), (b"the", THE)];

static LEX: &[u8] = b"\x03cat\0\0\0\x02\0\0\0\0\0\0\0\0\0\0\0\0\
    \0\x03dog\0\0\0\x02\0\0\0\0\0\0\0\x01\0\0\0\x01\
    \0\x03sat\0\0\0\x01\0\0\0\0\0\0\0\x02\0\0\0\x02\
    \0\x03the\0\0\0\x02\0\0\0\0\0\0\0\x03\0\0\0\x03";

// Its first entry, and a byte of the second one.
static CUT: &[u8] = b"\x03cat\0\0\0\x02\0\0\0\0\0\0\0\0\0\0\0\0\0";

static LEX_AT: &[u8] = b"\0\0\0\0";

// What they tell of these terms.
static TOLD: [(&[u8], Option<TermInfo>); 13] = [
    (b"cat", Some(CAT)),
    (b"dog", Some(DOG)),
    (b"sat", Some(SAT)),
    (b"the", Some(THE)),
    (b"", None),
    (b"ca", None),
    (b"cats", None),
    (b"do", None),
    (b"dogs", None),
    (b"sa", None),
    (b"t", None),
    (b"them", None),
    (b"z", None),
];

fn head_of(terms: u32) -> Head {
    Head {
        version: 1,
        documents: 3,
        words: 5,
        others: 5,
        terms,
        cap: 1_398_101,
        open_end: false,
        collection: 39,
        occurrences: 8,
        runs: 1,
        text_bytes: 9,
        post_bytes: 4,
        skip_count: 4,
    }
}

// Whether a term may stand behind so many others, of which this is the last.
fn may_come(number: u32, before: &[u8], term: &[u8]) -> bool
    ensures few { OnTrue result (number < 2 ^ 22) }
    ensures short { OnTrue result (length term.now ≤ 255) }
    ensures above { OnTrue result ((number == 0 || is_below before.now term.now) ≡ true) }
{
    if number >= 4_000_000 || term.len() > 255 {
        return false;
    }
    number == 0 || before.cmp(term).is_lt()
}

// Writes terms that rise, and answers how many they are.
fn push_all<S: Store>(
    writer: &mut LexWriter<'_>,
    store: &mut S,
    terms: &[(&[u8], TermInfo)],
) -> Result<u32, PutErr>
    requires took { TookTerms writer.old (S.files store.old) [] }
    ensures { OnOk result ((ts : List Term) × TookTerms writer.new (S.files store.new) ts) }
{
    let mut before: &[u8] = b"";
    let mut number = 0u32;
    for (term, info) in terms {
        if !may_come(number, before, term) {
            return Err(PutErr::Failed);
        }
        writer.push(store, term, info)?;
        before = term;
        number += 1;
    }
    Ok(number)
}

// Writes the terms, and what is left of the lexicon.
fn put_all<S: Store>(
    writer: &mut LexWriter<'_>,
    store: &mut S,
    terms: &[(&[u8], TermInfo)],
) -> Result<u32, PutErr>
    requires took { TookTerms writer.old (S.files store.old) [] }
{
    let count = push_all(writer, store, terms)?;
    writer.finish(store)?;
    Ok(count)
}

// The same as the lexicon.
fn write<S: Store>(
    alloc: Global,
    store: &mut S,
    terms: &[(&[u8], TermInfo)],
) -> Result<u32, PutErr> {
    let mut writer = LexWriter::start(alloc, store, "set")?;
    put_all(&mut writer, store, terms)
}

// Whether a lexicon tells this of each term.
fn tells_each<S: Store>(
    lex: &mut Lex<'_, S>,
    store: &mut S,
    rows: &[(&[u8], Option<TermInfo>)],
) -> Result<bool, PartErr>
    requires { FrontFits lex.old (S.files store.old) }
{
    for (term, info) in rows {
        if lex.find(store, term)? != *info {
            return Ok(false);
        }
    }
    Ok(true)
}

// Whether a reader of so many terms does.
fn tells<S: Store>(
    alloc: Global,
    store: &mut S,
    terms: u32,
    rows: &[(&[u8], Option<TermInfo>)],
) -> Result<bool, PartErr> {
    let mut lex = Lex::load(alloc, store, "set", &head_of(terms))?;
    tells_each(&mut lex, store, rows)
}

// Whether the lexicon of these terms has these bytes, and tells this.
fn is_kept(
    alloc: Global,
    terms: &[(&[u8], TermInfo)],
    (lex, lex_at): (&[u8], &[u8]),
    rows: &[(&[u8], Option<TermInfo>)],
) -> Result<bool, PutErr> {
    let mut store = SureStore::new(alloc);
    let count = write(alloc, &mut store, terms)?;
    let told = tells(alloc, &mut store, count, rows);
    let same = store.file("set.lex") == Some(lex) && store.file("set.lexat") == Some(lex_at);
    Ok(same && matches!(told, Ok(true)))
}

// What stands of terms that one document has, each with a byte of Post.
const FIRST: TermInfo = TermInfo {
    number: 0,
    docs: 1,
    post_at: 0,
    skip_at: 0,
};

const SECOND: TermInfo = TermInfo {
    number: 1,
    docs: 1,
    post_at: 1,
    skip_at: 1,
};

const THIRD: TermInfo = TermInfo {
    number: 2,
    docs: 1,
    post_at: 2,
    skip_at: 2,
};

const FOURTH: TermInfo = TermInfo {
    number: 3,
    docs: 1,
    post_at: 3,
    skip_at: 3,
};

const FIFTH: TermInfo = TermInfo {
    number: 4,
    docs: 1,
    post_at: 4,
    skip_at: 4,
};

// Terms that share their first bytes; the fifth is whole again.
static FIVE: [(&[u8], TermInfo); 5] = [
    (b"car", FIRST),
    (b"card", SECOND),
    (b"care", THIRD),
    (b"cat", FOURTH),
    (b"dog", FIFTH),
];

static LEX_OF_FIVE: &[u8] = b"\x03car\0\0\0\x01\0\0\0\0\0\0\0\0\0\0\0\0\
    \x03\x01d\0\0\0\x01\0\0\0\0\0\0\0\x01\0\0\0\x01\
    \x03\x01e\0\0\0\x01\0\0\0\0\0\0\0\x02\0\0\0\x02\
    \x02\x01t\0\0\0\x01\0\0\0\0\0\0\0\x03\0\0\0\x03\
    \x03dog\0\0\0\x01\0\0\0\0\0\0\0\x04\0\0\0\x04";

static LEX_AT_OF_FIVE: &[u8] = b"\0\0\0\0\0\0\0\x4d";

static TOLD_OF_FIVE: [(&[u8], Option<TermInfo>); 8] = [
    (b"car", Some(FIRST)),
    (b"card", Some(SECOND)),
    (b"care", Some(THIRD)),
    (b"cat", Some(FOURTH)),
    (b"dog", Some(FIFTH)),
    (b"ca", None),
    (b"cards", None),
    (b"dogs", None),
];

// Whether the lexicons of four terms and of five are kept so.
fn are_kept(alloc: Global) -> Result<bool, PutErr> {
    let four = is_kept(alloc, &TERMS, (LEX, LEX_AT), &TOLD)?;
    let places = LEX_AT_OF_FIVE;
    let five = is_kept(alloc, &FIVE, (LEX_OF_FIVE, places), &TOLD_OF_FIVE)?;
    Ok(four && five)
}

#[test]
fn lexicons_are_written_and_tell_their_terms(rt: HostRuntime) -> Result<(), Fail> {
    assert!(rt; are_kept(rt.alloc())?);
    Ok(())
}

static THE_TOLD: [(&[u8], Option<TermInfo>); 1] = [(b"the", Some(THE))];

// How a look-up of `the` ends where Lex is cut.
fn cut(alloc: Global) -> Result<bool, PartErr> {
    let mut store = SureStore::new(alloc);
    store.put_file("set.lex", CUT)?;
    store.put_file("set.lexat", LEX_AT)?;
    tells(alloc, &mut store, 4, &THE_TOLD)
}

#[test]
fn a_cut_part_is_damaged(rt: HostRuntime) -> Result<(), Fail> {
    let told = cut(rt.alloc());
    assert!(rt; matches!(told, Err(PartErr::Bad(bad)) if bad.part == Part::Lex && bad.at == 0));
    Ok(())
}
