//! Postings from bits.
ghost use Rattle.std.specs.Prelude.{◌≡◌, ◌≤◌, length, take};
ghost use Rattle.mg_post.specs.Ahead.{IsAhead};
ghost use Rattle.mg_post.specs.Reading.{FillsBlock, ReadsPosting};

use crate::ahead::{Ahead, GapCode, gap_code, posting_ahead};
use crate::bounds::DocBounds;
use crate::parameter::Parameter;
use crate::refusal::{Refusal, refused_code};
use mg_bits::{BitReader, Feed};
use mg_codes::{get_gamma, get_golomb};
use mg_defs::Posting;

// The last place from which a code is read.
const LAST: u64 = 1 << 63;

/// The posting of a document within bounds that stands at the reader's place, by the list's parameter.
/// It stands apart so that what is read from bits that were looked at is short.
#[inline(never)]
fn read_posting<F: Feed>(
    r: &mut BitReader<F>,
    dev: &mut F::Dev,
    parameter: Parameter,
    bounds: DocBounds,
) -> Result<Posting, Refusal>
    requires { F.fits r.old.feed (F.device dev.old).files }
    ensures { ReadsPosting bounds.most parameter.value bounds.after F.fits F.feeding F.device
        r.old r.new dev.old dev.new result }
{
    let start = r.place();
    if bounds.after >= bounds.most || start > LAST {
        return Err(Refusal::Damaged { at: start });
    }
    let most = u64::from(bounds.most - bounds.after);
    let gap = match get_golomb(r, dev, parameter.value, most) {
        Ok(gap) => gap as u32,
        Err(refusal) => return Err(refused_code(refusal, start)),
    };
    let behind = r.place();
    if behind > LAST {
        r.seek(start);
        return Err(Refusal::Damaged { at: behind });
    }
    match get_gamma(r, dev, 0xffff_ffff) {
        Ok(freq) => Ok(Posting {
            doc: bounds.after + gap,
            freq: freq as u32,
        }),
        Err(refusal) => {
            r.seek(start);
            Err(refused_code(refusal, behind))
        }
    }
}

/// Bits to read a posting from: those that were looked at before, or where they are few the next
/// ones, where the page that is held has them.
#[inline]
fn look<F: Feed>(r: &BitReader<F>, ahead: Ahead) -> Ahead
    requires { IsAhead (F.feeding r.now.feed) (F.fits r.now.feed) r.now.place ahead.bits
        ahead.count }
    ensures { IsAhead (F.feeding r.now.feed) (F.fits r.now.feed) r.now.place result.bits
        result.count }
{
    if ahead.count >= 24 || r.place() > LAST {
        return ahead;
    }
    let Some(bits) = r.peek() else {
        return ahead;
    };
    Ahead { bits, count: 57 }
}

/// As `read_posting`, from the bits that were looked at where they have all of it.
#[inline]
fn next_posting<F: Feed>(
    r: &mut BitReader<F>,
    dev: &mut F::Dev,
    ahead: &mut Ahead,
    code: GapCode,
    bounds: DocBounds,
) -> Result<Posting, Refusal>
    requires fits { F.fits r.old.feed (F.device dev.old).files }
    requires ahead { IsAhead (F.feeding r.old.feed) (F.fits r.old.feed) r.old.place ahead.old.bits
        ahead.old.count }
    ensures ahead { IsAhead (F.feeding r.new.feed) (F.fits r.new.feed) r.new.place ahead.new.bits
        ahead.new.count }
    ensures posting { ReadsPosting bounds.most code.parameter.value bounds.after F.fits F.feeding
        F.device r.old r.new dev.old dev.new result }
{
    let seen = look(r, *ahead);
    match posting_ahead(seen, code, bounds) {
        Some(passed) => {
            r.seek(r.place() + u64::from(seen.count - passed.left.count));
            *ahead = passed.left;
            Ok(passed.posting)
        }
        None => {
            *ahead = Ahead::none();
            // Matched anew, so that the compiler keeps a posting of either way in registers.
            match read_posting(r, dev, code.parameter, bounds) {
                Ok(posting) => Ok(posting),
                Err(refusal) => Err(refusal),
            }
        }
    }
}

/// Reads so many postings of documents within bounds to the front of `out`. Answers the last document.
pub fn read_block<F: Feed>(
    r: &mut BitReader<F>,
    dev: &mut F::Dev,
    parameter: Parameter,
    bounds: DocBounds,
    count: usize,
    out: &mut Vec<Posting>,
) -> Result<u32, Refusal>
    requires fits { F.fits r.old.feed (F.device dev.old).files }
    requires room { count ≤ length out.old.items }
    ensures kept { length out.new.items ≡ length out.old.items }
    ensures read { FillsBlock bounds.most parameter.value bounds.after count
        (take count out.new.items) F.fits F.feeding F.device r.old r.new dev.old dev.new result }
{
    let start = r.place();
    let code = gap_code(parameter);
    let mut ahead = Ahead::none();
    let mut last = bounds.after;
    for i in 0..count {
        let behind = DocBounds {
            after: last,
            most: bounds.most,
        };
        match next_posting(r, dev, &mut ahead, code, behind) {
            Ok(posting) => {
                out[i] = posting;
                last = posting.doc;
            }
            Err(refusal) => {
                r.seek(start);
                return Err(refusal);
            }
        }
    }
    Ok(last)
}
