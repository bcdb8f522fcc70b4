//! A document coded anew.
//!
//! Nothing is known of what decoding damaged text gives. So a document is kept only once its own code is found in the
//! text: it is coded by the same model into a store of its own, and the bytes are compared.
ghost use Rattle.std.specs.Prelude.{◌≡◌, ◌+◌, ◌*◌, ◌<◌, ◌^◌, ◌∷◌, [], ℕ, false, true, Contains, IsSome, OnOk, length};
ghost use Rattle.mg_defs.specs.Bits.{Bits};
ghost use Rattle.mg_defs.specs.Marks.{code_of};
ghost use Rattle.mg_defs.specs.Means.{HasCodewords, IsCodable, IsModel, IsStreamCode};
ghost use Rattle.mg_parse.specs.Lent.{pair_of};
ghost use Rattle.mg_text_writer.specs.Writing.{IsOnText, turn};
ghost use Rattle.std.specs.List.{AllByRecursion};
ghost use Rattle.mg_defs.specs.Parse.{parse};
ghost use Rattle.mg_check_parts.specs.Decoding.{CanCode, ClosesText, HasRoom, IsCodedAs, PutPairs, WhereCoded, WherePut, WhereUnknown, PutsPiece, text_in};

use crate::recent::Recent;
use crate::uses::{Uses, count_use};
use mg_dev::{PutErr, Store};
use mg_mem::SureStore;
use mg_model::{Stream, TextModel, symbol_and_piece};
use mg_parse::{Pair, Pairs};
use mg_text_writer::TextWriter;
use std::alloc::{AllocError, Global};

// The base of the store that a document is coded into, and the full name of its text.
const BASE: &str = "";

const TEXT: &str = ".text";

/// The bytes of a coded document, as they stand in a text.
#[derive(Drop)]
pub struct CodedDoc {
    /// A store that has them as its text, and nothing else.
    pub store: SureStore,
}

impl CodedDoc {
    /// The bytes.
    #[tactic(auto, unfolding(mg_dev::specs::Names::full_name))]
    pub fn bytes(&self) -> &[u8]
        ensures { result.now ≡ text_in (⟦<SureStore as Store>⟧.files self.now.store) }
    {
        match self.store.file(TEXT) {
            Some(bytes) => bytes,
            None => &[],
        }
    }
}

// One stream of a model.
#[derive(Drop)]
struct ModelStream<'m> {
    model: &'m TextModel,
    stream: Stream,
}

// Writes the codeword of a piece and counts it; None where the piece has none.
fn put_piece<S: Store>(
    writer: &mut TextWriter<'_>,
    store: &mut S,
    of: &ModelStream<'_>,
    piece: &[u8],
    counts: &mut Vec<u64>,
    recent: &mut Recent,
) -> Result<Option<()>, PutErr>
    requires took { (bits : Bits) × IsOnText writer.old (S.files store.old) [] bits }
    requires more { 0 < writer.old.left }
    requires turn { of.now.stream ≡ turn writer.old.left }
    requires keeps { IsStreamCode (code_of of.now.stream of.now.model.now) }
    requires room { HasRoom (code_of of.now.stream of.now.model.now) counts.old.items 1 }
    ensures put { WherePut result (PutsPiece S.files store.old store.new of.now.stream
        of.now.model.now piece.now writer.old writer.new counts.old.items counts.new.items) }
    ensures unknown { WhereUnknown result
        (Contains (code_of of.now.stream of.now.model.now).pieces piece.now → ⊥) }
{
    // Laws of symbols.
    symbol_and_piece();
    let symbol = match recent.symbol(of.model, of.stream, piece) {
        Some(symbol) => symbol,
        None => return Ok(None),
    };
    match writer.put_piece(store, of.model, of.stream, symbol) {
        Ok(()) => {}
        Err(refusal) => return Err(refusal),
    }
    count_use(counts, symbol);
    Ok(Some(()))
}

// The same of both pieces of a pair.
fn put_pair<S: Store>(
    writer: &mut TextWriter<'_>,
    store: &mut S,
    model: &TextModel,
    pair: Pair<'_>,
    uses: &mut Uses,
) -> Result<Option<()>, PutErr>
    requires took { (bits : Bits) × IsOnText writer.old (S.files store.old) [] bits }
    requires more { (n : ℕ) × (writer.old.left ≡ 2 * n + 2) }
    requires model { IsModel model.now }
    requires words { HasRoom model.now.words uses.old.words.items 1 }
    requires others { HasRoom model.now.others uses.old.others.items 1 }
    ensures put { WherePut result
        (PutPairs model.now (pair_of pair.entry ∷ []) writer.old writer.new (S.files store.old)
        (S.files store.new) uses.old uses.new) }
    ensures unknown { WhereUnknown result (HasCodewords model.now (pair_of pair.entry) → ⊥) }
{
    let words = ModelStream {
        model,
        stream: Stream::Words,
    };
    match put_piece(
        writer,
        store,
        &words,
        pair.word,
        &mut uses.words,
        &mut uses.recent_words,
    ) {
        Ok(Some(())) => {}
        Ok(None) => return Ok(None),
        Err(refusal) => return Err(refusal),
    }
    let others = ModelStream {
        model,
        stream: Stream::Others,
    };
    put_piece(
        writer,
        store,
        &others,
        pair.other,
        &mut uses.others,
        &mut uses.recent_others,
    )
}

// Writes the pairs of a document behind their number.
fn put_pairs<S: Store>(
    writer: &mut TextWriter<'_>,
    store: &mut S,
    model: &TextModel,
    doc: &[u8],
    uses: &mut Uses,
) -> Result<Option<()>, PutErr>
    requires took { (bits : Bits) × IsOnText writer.old (S.files store.old) [] bits }
    requires more { writer.old.left ≡ 2 * length (parse doc.now) }
    requires model { IsModel model.now }
    requires words { HasRoom model.now.words uses.old.words.items (length (parse doc.now)) }
    requires others { HasRoom model.now.others uses.old.others.items (length (parse doc.now)) }
    ensures put { WherePut result (PutPairs model.now (parse doc.now) writer.old writer.new
        (S.files store.old) (S.files store.new) uses.old uses.new) }
    ensures unknown { WhereUnknown result (AllByRecursion (HasCodewords model.now) (parse doc.now) →
        ⊥) }
{
    for pair in Pairs::new(doc) {
        match put_pair(writer, store, model, pair, uses) {
            Ok(Some(())) => {}
            Ok(None) => return Ok(None),
            Err(refusal) => return Err(refusal),
        }
    }
    Ok(Some(()))
}

// How many pairs a document has.
fn count_pairs(doc: &[u8]) -> u32
    requires { length doc.now < 2 ^ 32 }
    ensures { result ≡ length (parse doc.now) }
{
    Pairs::new(doc).count() as u32
}

// Ends the document that was begun, all of whose pieces were put, and writes what is held.
fn close_text<S: Store>(writer: &mut TextWriter<'_>, store: &mut S) -> Result<(), PutErr>
    requires took { (bits : Bits) × IsOnText writer.old (S.files store.old) [] bits }
    requires base { writer.old.base ≡ [] }
    requires begun { writer.old.is_open ≡ true }
    requires whole { writer.old.left ≡ 0 }
    ensures closed { OnOk result (ClosesText writer.old (S.files store.old) (S.files store.new)) }
{
    writer.end_doc(store)?;
    writer.finish(store)?;
    Ok(())
}

// Codes a document by a writer to which nothing was put.
fn put_doc<S: Store>(
    writer: &mut TextWriter<'_>,
    store: &mut S,
    model: &TextModel,
    doc: &[u8],
    uses: &mut Uses,
) -> Result<Option<()>, PutErr>
    requires took { IsOnText writer.old (S.files store.old) [] [] }
    requires base { writer.old.base ≡ [] }
    requires docs { writer.old.docs ≡ 0 }
    requires pairs { writer.old.pairs ≡ 0 }
    requires closed { writer.old.is_open ≡ false }
    requires can { CanCode model.now doc.now uses.old }
    ensures coded { WherePut result (IsSome (S.files store.old) →
        IsCodedAs model.now doc.now (text_in (S.files store.new)) uses.old uses.new) }
    ensures unknown { WhereUnknown result (IsCodable model.now doc.now → ⊥) }
{
    let count = count_pairs(doc);
    writer.begin_doc(store, count)?;
    match put_pairs(writer, store, model, doc, uses) {
        Ok(Some(())) => {}
        Ok(None) => return Ok(None),
        Err(refusal) => return Err(refusal),
    }
    close_text(writer, store)?;
    Ok(Some(()))
}

// Codes a document into an empty store.
fn code_into<S: Store>(
    alloc: Global,
    store: &mut S,
    model: &TextModel,
    doc: &[u8],
    uses: &mut Uses,
) -> Result<Option<()>, PutErr>
    requires can { CanCode model.now doc.now uses.old }
    ensures coded { WherePut result (IsSome (S.files store.old) →
        IsCodedAs model.now doc.now (text_in (S.files store.new)) uses.old uses.new) }
    ensures unknown { WhereUnknown result (IsCodable model.now doc.now → ⊥) }
{
    let mut writer = TextWriter::start(alloc, store, BASE)?;
    put_doc(&mut writer, store, model, doc, uses)
}

/// Codes a document by a model and counts its pieces; None where one of them has no codeword, and then the counts are of
/// no use. It takes the memory of the coded document, which has at most twelve bytes for each of its bytes, and thirteen.
pub fn code_doc(
    alloc: Global,
    model: &TextModel,
    doc: &[u8],
    uses: &mut Uses,
) -> Result<Option<CodedDoc>, AllocError>
    requires can { CanCode model.now doc.now uses.old }
    ensures coded { WhereCoded result
        (λ coded. IsCodedAs model.now doc.now (text_in (⟦<SureStore as Store>⟧.files coded.store))
        uses.old uses.new) }
    ensures unknown { WhereUnknown result (IsCodable model.now doc.now → ⊥) }
{
    let mut store = SureStore::new(alloc);
    match code_into(alloc, &mut store, model, doc, uses) {
        Ok(Some(())) => Ok(Some(CodedDoc { store })),
        Ok(None) => Ok(None),
        // The store never fails: only memory may be wanting.
        Err(_) => Err(AllocError),
    }
}
