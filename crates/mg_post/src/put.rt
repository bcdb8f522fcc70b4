//! Postings and skip entries into bits.
ghost use Rattle.std.specs.Prelude.{◌≡◌, ◌+◌, ◌-◌, ◌<◌, ◌≤◌, ◌^◌, OnOk};
ghost use Rattle.mg_dev.specs.Moments.{Between};
ghost use Rattle.mg_bits.specs.Writer.{Wrote};
ghost use Rattle.mg_bits.specs.BitWriting.{Holds, WroteBits};
ghost use Rattle.mg_defs.specs.Lists.{posting_bits};
ghost use Rattle.mg_post.specs.Writing.{WritesTo, entry_bytes, skip_entry};

use crate::parameter::Parameter;
use mg_bits::{BitWriter, PageWriter};
use mg_codes::{put_gamma, put_golomb};
use mg_defs::Posting;
use mg_dev::{PutErr, Store};
use mg_fields::eight_bytes;

/// Writes a posting after a document, with the list's parameter.
pub fn put_posting<S: Store>(
    w: &mut BitWriter<'_>,
    store: &mut S,
    parameter: Parameter,
    before: u32,
    posting: Posting,
) -> Result<(), PutErr>
    requires holds { Holds w.old (S.files store.old) }
    requires place { w.old.place ≤ 2 ^ 62 }
    requires after { before < posting.doc }
    requires some { 1 ≤ posting.freq }
    ensures holds { OnOk result (Holds w.new (S.files store.new)) }
    ensures bits { OnOk result (WroteBits w.old w.new (S.files store.old) (S.files store.new)
        (posting_bits parameter.value before posting)) }
    ensures short { OnOk result (w.new.place ≤ w.old.place + (posting.doc - before) + 256) }
    ensures step { Between S.files S.reads S.faults store.old store.new
        (WritesTo w.old.name w.new.name result) }
{
    put_golomb(w, store, parameter.value, u64::from(posting.doc - before))?;
    put_gamma(w, store, u64::from(posting.freq))?;
    Ok(())
}

/// Writes a skip entry: two numbers of 8 bytes.
pub fn put_entry<S: Store>(
    w: &mut PageWriter<'_>,
    store: &mut S,
    last: u32,
    bits: u64,
) -> Result<(), PutErr>
    ensures bytes { OnOk result (Wrote w.old w.new (S.files store.old) (S.files store.new)
        (entry_bytes (skip_entry last bits))) }
    ensures step { Between S.files S.reads S.faults store.old store.new
        (WritesTo w.old.name w.new.name result) }
{
    w.put_all(store, &eight_bytes(u64::from(last)))?;
    w.put_all(store, &eight_bytes(bits))?;
    Ok(())
}
