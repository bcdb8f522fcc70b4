//! How often the pieces of both streams come.
//!
//! A code is that of a collection only where each of its pieces comes, and where its lengths cost no more bits than those
//! of Huffman's method. So the pieces are counted while the text is read.
ghost use Rattle.std.specs.Prelude.{Err, ◌≡◌, ◌≢◌, ◌+◌, ◌<◌, ◌≤◌, ◌^◌, [], All, sum, length, get_or, IfOk, OnOk};
ghost use Rattle.std.proofs.Math.ListN.{set};
ghost use Rattle.mg_defs.specs.Cost.{cost_of};
ghost use Rattle.mg_defs.specs.Means.{IsModel};
ghost use Rattle.mg_check_parts.specs.Refusals.{OnBad};
ghost use Rattle.mg_check_parts.specs.Decoding.{AreCounts, IsUsed};

use crate::recent::Recent;
use mg_canon::Canon;
use mg_dev::{Bad, Part, PartErr};
use mg_model::{Stream, TextModel};
use std::alloc::{AllocError, Global};

/// How often the piece of each symbol came, in both streams, and the symbols that were looked up last.
#[derive(Drop)]
pub struct Uses {
    pub words: Vec<u64>,
    pub others: Vec<u64>,
    pub(crate) recent_words: Recent,
    pub(crate) recent_others: Recent,
}

impl Uses {
    /// No piece came.
    pub fn none(alloc: Global, model: &TextModel) -> Result<Self, AllocError>
        ensures model { IsModel model.now }
        ensures words { IfOk result (λ uses. AreCounts model.now.words [] uses.words.items) }
        ensures others { IfOk result (λ uses. AreCounts model.now.others [] uses.others.items) }
        ensures no_words { IfOk result (λ uses. sum uses.words.items ≡ 0) }
        ensures no_others { IfOk result (λ uses. sum uses.others.items ≡ 0) }
    {
        let words = model.canon(Stream::Words).count() as usize;
        let others = model.canon(Stream::Others).count() as usize;
        Ok(Uses {
            words: vec![in alloc; 0; words]?,
            others: vec![in alloc; 0; others]?,
            recent_words: Recent::new(alloc)?,
            recent_others: Recent::new(alloc)?,
        })
    }
}

/// Counts the piece of a symbol once more.
pub(crate) fn count_use(counts: &mut Vec<u64>, symbol: u32)
    requires symbol { symbol < length counts.old.items }
    requires few { sum counts.old.items < 2 ^ 63 }
    ensures { counts.new.items ≡ set counts.old.items symbol
        (get_or counts.old.items symbol 0 + 1) }
{
    counts[symbol as usize] += 1;
}

// The bits that so many codewords of these lengths take.
fn cost(counts: &[u64], lengths: &[u8]) -> u64
    requires each { length counts.now ≡ length lengths.now }
    requires few { sum counts.now < 2 ^ 32 }
    requires short { All (λ l. l ≤ 48) lengths.now }
    ensures { result ≡ cost_of counts.now lengths.now }
{
    let mut bits = 0;
    for i in 0..counts.len() {
        bits += counts[i] * u64::from(lengths[i]);
    }
    bits
}

// The lengths of a code, in the order of its symbols.
fn lengths_of(alloc: Global, canon: &Canon) -> Result<Vec<u8>, AllocError>
    ensures lengths { IfOk result (λ lengths. lengths.items ≡ canon.now) }
    ensures short { All (λ l. l ≤ 48) canon.now }
{
    let mut lengths = Vec::new(alloc);
    for symbol in 0..canon.count() {
        lengths.push(canon.length(symbol))?;
    }
    Ok(lengths)
}

/// Refuses the code of a part where one of its pieces never came, or where its lengths don't have Huffman's cost for how
/// often the pieces came.
pub fn expect_used(alloc: Global, part: Part, counts: &[u64], canon: &Canon) -> Result<(), PartErr>
    requires each { length counts.now ≡ length canon.now }
    requires few { sum counts.now < 2 ^ 32 }
    ensures used { OnOk result (IsUsed counts.now canon.now) }
    ensures unused { OnBad result (IsUsed counts.now canon.now → ⊥) }
    ensures device { result ≢ Err PartErr.Device }
{
    if counts.iter().any(|count| *count == 0) {
        return Err(PartErr::Bad(Bad {
            part,
            at: 0,
            low: 1,
            high: u64::MAX,
            found: 0,
        }));
    }
    let mut best = Vec::new(alloc);
    mg_huff::lengths(alloc, counts, &mut best)?;
    let own = lengths_of(alloc, canon)?;
    let wanted = cost(counts, &best);
    let found = cost(counts, &own);
    if found == wanted {
        return Ok(());
    }
    Err(PartErr::Bad(Bad {
        part,
        at: 0,
        low: wanted,
        high: wanted,
        found,
    }))
}
