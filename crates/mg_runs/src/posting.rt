//! A posting in bits.
ghost use Rattle.std.specs.Prelude.{◌≡◌, ◌+◌, ◌≤◌, ◌<◌, ◌^◌, OnOk};
ghost use Rattle.mg_defs.specs.Codes.{gamma};
ghost use Rattle.mg_defs.specs.Postings.{IsBefore};
ghost use Rattle.mg_defs.specs.RunBits.{run_posting_bits, doc_gap as gap_of};
ghost use Rattle.mg_bits.specs.BitWriting.{Holds};
ghost use Rattle.mg_codes.specs.Writers.{PutsBits};
ghost use Rattle.mg_runs.specs.PostingOrder.{Follows};

use mg_bits::BitWriter;
use mg_codes::put_gamma;
use mg_defs::TermPosting;
use mg_dev::{PutErr, Store};

/// The gap of the document, where the posting before has the same term, or the document.
fn doc_gap(last: &TermPosting, posting: &TermPosting) -> u32
    requires { IsBefore last.now posting.now }
    ensures { result ≡ gap_of last.now posting.now }
{
    if posting.term == last.term {
        posting.doc - last.doc
    } else {
        posting.doc
    }
}

/// Writes a number below 2^33 in the gamma code.
pub fn put_number<S: Store>(w: &mut BitWriter<'_>, store: &mut S, x: u64) -> Result<(), PutErr>
    requires holds { Holds w.old (S.files store.old) }
    requires place { w.old.place ≤ 2 ^ 63 }
    requires some { 1 ≤ x }
    requires below { x < 2 ^ 33 }
    ensures puts { PutsBits (gamma x) S.files S.reads S.faults w.old w.new store.old store.new
        result }
    ensures place { OnOk result (w.new.place ≤ w.old.place + 66) }
{
    put_gamma(w, store, x)
}

/// Writes a posting after another one.
pub fn put_posting<S: Store>(
    w: &mut BitWriter<'_>,
    store: &mut S,
    last: &TermPosting,
    posting: &TermPosting,
) -> Result<(), PutErr>
    requires holds { Holds w.old (S.files store.old) }
    requires place { w.old.place + 256 ≤ 2 ^ 63 }
    requires follows { Follows last.now posting.now }
    ensures puts { PutsBits (run_posting_bits last.now posting.now) S.files S.reads S.faults
        w.old w.new store.old store.new result }
    ensures place { OnOk result (w.new.place ≤ w.old.place + 256) }
{
    match put_number(w, store, u64::from(posting.term - last.term) + 1) {
        Ok(()) => {}
        Err(refusal) => return Err(refusal),
    }
    match put_number(w, store, u64::from(doc_gap(last, posting))) {
        Ok(()) => {}
        Err(refusal) => return Err(refusal),
    }
    match put_number(w, store, u64::from(posting.count)) {
        Ok(()) => Ok(()),
        Err(refusal) => Err(refusal),
    }
}
