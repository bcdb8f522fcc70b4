//! The numbers that are read of a document: how many pairs it has, and the symbols of its pieces.
ghost use Rattle.std.specs.Prelude.{◌≡◌, ◌+◌, ◌<◌, ◌^◌, ℕ, IfNone, IfOk, IfSome, length};
ghost use Rattle.mg_defs.specs.Canon.{codeword};
ghost use Rattle.mg_defs.specs.Codes.{gamma};
ghost use Rattle.mg_canon.specs.Pairs.{HeldSymbols, standing};
ghost use Rattle.mg_text.specs.Decoding.{ReadsCode, ReadsNumber, StoodNext};
ghost use Rattle.mg_text.specs.Refusals.{IsRefused, IsDamaged};

use mg_bits::{BitReader, CodeErr, Feed};
use mg_canon::{Canon, pair_at};
use mg_codes::get_gamma;
use mg_dev::{Bad, Part, PartErr};

// The last place from which a code is read.
const LAST: u64 = 1 << 63;

// The most pairs of a document, and one.
const MOST: u64 = 1 << 32;

/// What is to stand at this bit place of the text does not.
pub fn damaged(at: u64) -> PartErr
    ensures { IsDamaged at result }
{
    PartErr::Bad(Bad {
        part: Part::Text,
        at,
        low: 1,
        high: 1,
        found: 0,
    })
}

// A refusal of a reader of a code.
fn refused(refusal: CodeErr) -> PartErr
    ensures { IsRefused refusal result }
{
    match refusal {
        CodeErr::Device => PartErr::Device,
        CodeErr::End { at } => damaged(at),
        CodeErr::Over { at, .. } => damaged(at),
    }
}

/// The symbol whose codeword stands at the place.
#[inline]
pub fn get_symbol<F: Feed>(
    canon: &Canon,
    r: &mut BitReader<F>,
    dev: &mut F::Dev,
) -> Result<u32, PartErr>
    requires fits { F.fits r.old.feed (F.device dev.old).files }
    ensures read { ReadsNumber (F.fits r.new.feed (F.device dev.new).files) result
        (F.feeding r.old.feed) (F.feeding r.new.feed) (F.device dev.old) (F.device dev.new) }
    ensures symbol { IfOk result (λ s. s < length canon.now) }
    ensures told { (s : ℕ) → s < length canon.now →
        ReadsCode F.feeding F.device r.old r.new dev.old dev.new (codeword canon.now s) s result }
    ensures stood { IfOk result (λ s.
        StoodNext F.feeding F.device r.old r.new dev.old (codeword canon.now s)) }
{
    let at = r.place();
    if at > LAST || canon.count() == 0 {
        return Err(damaged(at));
    }
    match canon.get(r, dev) {
        Ok(symbol) => Ok(symbol),
        Err(refusal) => Err(refused(refusal)),
    }
}

/// The symbols of a word and of its other, whose codewords stand at this place, and the place behind
/// both, where the reader holds the bits of both: what `get_symbol` of the one code and then of the
/// other answer at `Ok`, with no device asked. The reader stays where it is.
#[inline(always)]
pub fn symbols_at<F: Feed>(
    words: &Canon,
    others: &Canon,
    r: &BitReader<F>,
    place: u64,
) -> Option<(u32, u32, u64)>
    ensures { IfSome result
        (λ found. HeldSymbols F.fits F.feeding words.now others.now (standing r.now.feed place)
        (standing r.now.feed found.2) (found.0, found.1)) }
{
    if place > LAST || words.count() == 0 || others.count() == 0 {
        return None;
    }
    pair_at(words, others, r, place)
}

/// The same at the reader's place, which goes behind both. At `None` it is the one before.
#[inline(always)]
pub fn held_symbols<F: Feed>(
    words: &Canon,
    others: &Canon,
    r: &mut BitReader<F>,
) -> Option<(u32, u32)>
    ensures feed { r.new.feed ≡ r.old.feed }
    ensures symbols { IfSome result
        (HeldSymbols F.fits F.feeding words.now others.now r.old r.new) }
    ensures place { IfNone result (r.new.place ≡ r.old.place) }
{
    match symbols_at(words, others, r, r.place()) {
        Some((word, other, behind)) => {
            r.seek(behind);
            Some((word, other))
        }
        None => None,
    }
}

/// How many pairs the document has whose bits stand at the place.
pub fn get_count<F: Feed>(r: &mut BitReader<F>, dev: &mut F::Dev) -> Result<u32, PartErr>
    requires fits { F.fits r.old.feed (F.device dev.old).files }
    ensures read { ReadsNumber (F.fits r.new.feed (F.device dev.new).files) result
        (F.feeding r.old.feed) (F.feeding r.new.feed) (F.device dev.old) (F.device dev.new) }
    ensures told { (n : ℕ) → n < 2 ^ 32 →
        ReadsCode F.feeding F.device r.old r.new dev.old dev.new (gamma (n + 1)) n result }
    ensures stood { IfOk result (λ n.
        StoodNext F.feeding F.device r.old r.new dev.old (gamma (n + 1))) }
{
    let at = r.place();
    if at > LAST {
        return Err(damaged(at));
    }
    match get_gamma(r, dev, MOST) {
        Ok(number) => Ok((number - 1) as u32),
        Err(refusal) => Err(refused(refusal)),
    }
}
