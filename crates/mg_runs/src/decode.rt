//! Numbers and postings from bits in memory.
ghost use Rattle.std.specs.Prelude.{◌≡◌, ◌+◌, ◌-◌, ◌≤◌, ◌<◌, ◌^◌, ℕ, Some, IfSome, length};
ghost use Rattle.mg_defs.specs.Answers.{UpTo};
ghost use Rattle.mg_defs.specs.Bits.{Bits};
ghost use Rattle.mg_defs.specs.Codes.{gamma};
ghost use Rattle.mg_defs.specs.RunBits.{run_posting_bits, doc_gap as gap_of};
ghost use Rattle.mg_defs.specs.declared.TermPosting.{TermPosting};
ghost use Rattle.mg_runs.specs.Decoding.{IsInDocument, HasCode, ForFollowing, decoded_at};

use mg_bits::{BitReader, NoDev, SliceFeed};
use mg_codes::{get_gamma, what_was_put_is_got};
use mg_defs::TermPosting;

/// The greatest number of 32 bits: the most that a document, its gap or a count may be.
const MOST: u64 = 0xffff_ffff;

/// The most postings that a run has.
pub const MOST_LEFT: u64 = 0xffff_fffe;

/// The most that 1 and the gap of a term may be.
const MOST_GAP: u64 = 0x1_0000_0000;

/// A number that was read, and the bit place behind it.
#[derive(Clone, Copy)]
pub struct Number {
    pub value: u64,
    pub next: u64,
}

/// A posting that was read, and the bit place behind it.
#[derive(Clone, Copy)]
pub struct Decoded {
    pub posting: TermPosting,
    pub next: u64,
}

/// The number whose gamma code stands at a bit place, from 1 to `limit`.
pub fn number_in(bytes: &[u8], at: u64, limit: u64) -> Option<Number>
    requires place { at ≤ 2 ^ 63 }
    requires some { 1 ≤ limit }
    requires limit { limit ≤ 2 ^ 32 }
    ensures told { (x : ℕ) (more : Bits) → UpTo limit x → HasCode bytes.now at (gamma x) more →
        result ≡ Some (record { value = x; next = at + length (gamma x) }) }
    ensures range { IfSome result (λ number. UpTo limit number.value) }
    ensures next { IfSome result (λ number. number.next ≤ at + 66) }
    ensures onward { IfSome result (λ number. at ≤ number.next) }
{
    what_was_put_is_got();
    let mut reader = BitReader::new(SliceFeed::new(bytes), at);
    match get_gamma(&mut reader, &mut NoDev, limit) {
        Ok(value) => Some(Number {
            value,
            next: reader.place(),
        }),
        Err(_) => None,
    }
}

/// The term and the document that stand by gaps behind a posting, where they fit in 32 bits.
fn behind(last: &TermPosting, term_gap: u64, doc_gap: u64) -> Option<(u32, u32)>
    requires term_some { 1 ≤ term_gap }
    requires term { term_gap ≤ 2 ^ 32 }
    requires doc { doc_gap ≤ 2 ^ 32 }
    requires doc_some { 1 ≤ doc_gap }
    ensures told { ForFollowing last.now (λ x. term_gap ≡ x.term - last.now.term + 1 →
        doc_gap ≡ gap_of last.now x → result ≡ Some (x.term, x.doc)) }
    ensures doc { IfSome result (λ found. 1 ≤ found.1) }
{
    let term = u64::from(last.term) + (term_gap - 1);
    let doc = if term_gap == 1 {
        u64::from(last.doc) + doc_gap
    } else {
        doc_gap
    };
    if term > MOST || doc > MOST {
        return None;
    }
    Some((term as u32, doc as u32))
}

/// The posting whose bits stand at a bit place, behind another posting.
pub fn posting_in(bytes: &[u8], at: u64, last: &TermPosting) -> Option<Decoded>
    requires place { at ≤ 2 ^ 62 }
    ensures told { ForFollowing last.now (λ x. (more : Bits) →
        HasCode bytes.now at (run_posting_bits last.now x) more →
        result ≡ Some (decoded_at last.now at x)) }
    ensures in_document { IfSome result (λ found. IsInDocument found.posting) }
    ensures next { IfSome result (λ found. found.next ≤ at + 198) }
    ensures onward { IfSome result (λ found. at ≤ found.next) }
{
    let term_gap = match number_in(bytes, at, MOST_GAP) {
        Some(number) => number,
        None => return None,
    };
    let doc_gap = match number_in(bytes, term_gap.next, MOST) {
        Some(number) => number,
        None => return None,
    };
    let count = match number_in(bytes, doc_gap.next, MOST) {
        Some(number) => number,
        None => return None,
    };
    let (term, doc) = match behind(last, term_gap.value, doc_gap.value) {
        Some(found) => found,
        None => return None,
    };
    Some(Decoded {
        posting: TermPosting {
            term,
            doc,
            count: count.value as u32,
        },
        next: count.next,
    })
}
