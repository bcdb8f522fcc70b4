//! The codes of both streams.
ghost use Rattle.std.specs.Prelude.{◌≡◌, ◌<◌, ◌≤◌, ◌^◌, IsSome, is_some, length, position, slice_get, slice_index, Some, IfOk, IfSome, OnOk};
ghost use Rattle.std.specs.Str.{bytes_eq};
ghost use Rattle.mg_dev.specs.Causes.{HasPutCause};
ghost use Rattle.mg_dev.specs.Files.{SameReads};
ghost use Rattle.mg_dev.specs.Moments.{Between};
ghost use Rattle.mg_dev.specs.PartCauses.{HasPartCause};
ghost use Rattle.mg_defs.specs.CodedText.{IsHuffman, TextCode};
ghost use Rattle.mg_defs.specs.Vocabulary.{sorted_of, counts_of};
ghost use Rattle.mg_front.specs.Reading.{LookedAt};
ghost use Rattle.mg_model.specs.Blocks.{short_piece};
ghost use Rattle.mg_model.specs.Found.{AreFound};
ghost use Rattle.mg_model.specs.Damage.{AnswersStanding};
ghost use Rattle.mg_defs.specs.Marks.{code_of};
ghost use Rattle.mg_defs.specs.Means.{IsStreamCode};
ghost use Rattle.mg_model.specs.Models.{PartsHold, PartsStand};
ghost use Rattle.mg_model.specs.Loading.{AnswersModel, LoadsModel, OnlyModelChanges, ReadsOnce, ReadsWordsFirst, SkipsIfShort};
ghost use Rattle.mg_model.specs.Read.{ToldUnread};

use crate::block::SHORT;
use crate::dropping::without;
use crate::piece_key::PieceKey;
use crate::stream_model::StreamModel;
use crate::{FoundSymbols, Piece, Stream, Vocab};
use mg_canon::Canon;
use mg_dev::{FileRef, Part, PartErr, PutErr, Store};
use std::alloc::{AllocError, Global};
use std::marker::Model;

/// The distinct pieces of each stream in the order of their bytes, and the codes of their numbers:
/// a piece's symbol is its number, from 0.
///
/// A model that was made of vocabularies keeps their maps, sorted, and codes for writing. One that was
/// loaded keeps 25 bytes a piece, sixteen of them an entry with the piece's own where these are at most
/// fifteen, and beside them the bytes of the longer pieces.
#[derive(Drop)]
pub struct TextModel {
    words: StreamModel,
    others: StreamModel,
}

impl Model for TextModel {
    ghost use Rattle.mg_defs.specs.CodedText.{TextCode};

    ghost Value = { TextCode };

    ghost view = { λ m. record { words = m.words; others = m.others } };
}

impl TextModel {
    /// The model of counted pieces. Each stream's pieces have the lengths of a Huffman code of their
    /// counts; which one it is where counts tie is not promised.
    pub fn of(alloc: Global, words: Vocab, others: Vocab) -> Result<Self, AllocError>
        ensures words { IfOk result (λ model. model.words.pieces ≡ sorted_of words) }
        ensures others { IfOk result (λ model. model.others.pieces ≡ sorted_of others) }
        ensures word_lengths { IfOk result
            (λ model. IsHuffman (counts_of words) model.words.lengths) }
        ensures other_lengths { IfOk result
            (λ model. IsHuffman (counts_of others) model.others.lengths) }
    {
        let words = match StreamModel::of(alloc, words) {
            Ok(words) => words,
            Err(refusal) => return Err(without(others, refusal)),
        };
        match StreamModel::of(alloc, others) {
            Ok(others) => Ok(TextModel { words, others }),
            Err(refusal) => Err(without(words, refusal)),
        }
    }

    /// Writes the parts Words and Nonwords (docs/FORMAT.md).
    pub fn write<S: Store>(&self, alloc: Global, store: &mut S, base: &str) -> Result<(), PutErr>
        ensures hold { OnOk result (IsSome (S.files store.old) →
            PartsHold (S.files store.new) base.now self.now) }
        ensures others { OnlyModelChanges base.now (S.files store.old) (S.files store.new) }
        ensures told { is_some (S.files store.new) ≡ is_some (S.files store.old) }
        ensures reads { SameReads (S.reads store.old) (S.reads store.new) }
        ensures cause { HasPutCause (S.faults store.old) (S.faults store.new) result }
    {
        let words = FileRef {
            base,
            part: Part::Words,
        };
        let others = FileRef {
            base,
            part: Part::Nonwords,
        };
        self.words.write(alloc, store, words)?;
        self.others.write(alloc, store, others)
    }

    /// Reads the parts Words and Nonwords, each once. `words` and `others` are the numbers of pieces,
    /// at most 2^22 each. Three tests are made of a part: its size is compared with twice that number
    /// before it is read, its entries are walked, and then the lengths are tested. Each test of Words
    /// comes before any of Nonwords, and the first that fails is told. So memory is wanted only where
    /// Words is no shorter than twice `words`, and Nonwords is read only where Words has no damage;
    /// want of memory does not tell for which of the two it was. It reads no page of 4,096 bytes twice;
    /// it may ask for one page behind a part's end where the device fails or that part's entries are
    /// damaged, since an entry that breaks off is sought on there. Whatever it answers, the files stay
    /// as they were.
    pub fn load<S: Store>(
        alloc: Global,
        store: &mut S,
        base: &str,
        words: u32,
        others: u32,
    ) -> Result<Self, PartErr>
        requires words { words ≤ 2 ^ 22 }
        requires others { others ≤ 2 ^ 22 }
        ensures answer { IsSome (S.files store.old) →
            AnswersModel base.now words others (S.files store.old) result }
        ensures standing { (code : TextCode) →
            PartsStand (S.files store.old) base.now code words others →
            AnswersStanding result code }
        ensures looked { Between S.files S.reads S.faults store.old store.new
            (LookedAt Part.Words Part.Nonwords) }
        ensures words_once { Between S.files S.reads S.faults store.old store.new
            (ReadsOnce base.now Part.Words words result) }
        ensures others_once { Between S.files S.reads S.faults store.old store.new
            (ReadsOnce base.now Part.Nonwords others result) }
        ensures words_unread { Between S.files S.reads S.faults store.old store.new
            (SkipsIfShort base.now Part.Words words) }
        ensures others_unread { Between S.files S.reads S.faults store.old store.new
            (SkipsIfShort base.now Part.Nonwords others) }
        ensures words_first { Between S.files S.reads S.faults store.old store.new
            (ReadsWordsFirst base.now words) }
        ensures words_told { IsSome (S.files store.old) →
            ToldUnread (S.reads store.old) (S.reads store.new) result }
        ensures cause { HasPartCause (S.faults store.old) (S.faults store.new) result }
    {
        Self::load_parts(alloc, store, base, words, others)
    }

    // The same, over any bytes.
    fn load_parts<S: Store>(
        alloc: Global,
        store: &mut S,
        base: &str,
        words: u32,
        others: u32,
    ) -> Result<Self, PartErr>
        requires words { words ≤ 2 ^ 22 }
        requires others { others ≤ 2 ^ 22 }
        ensures { Between S.files S.reads S.faults store.old store.new
            (LoadsModel base.now words others result) }
    {
        let word_part = FileRef {
            base,
            part: Part::Words,
        };
        let other_part = FileRef {
            base,
            part: Part::Nonwords,
        };
        let words = match StreamModel::load(alloc, store, word_part, words) {
            Ok(words) => words,
            Err(refusal) => return Err(refusal),
        };
        match StreamModel::load(alloc, store, other_part, others) {
            Ok(others) => Ok(TextModel { words, others }),
            Err(refusal) => Err(without(words, refusal)),
        }
    }

    fn stream(&self, stream: Stream) -> &StreamModel
        ensures { result.now ≡ code_of stream self.now }
    {
        match stream {
            Stream::Words => &self.words,
            Stream::Others => &self.others,
        }
    }

    /// The symbol of a piece of the stream; None exactly where the piece is none of them. A model
    /// that was made looks it up with one hash; one that was loaded seeks it by halving.
    pub fn symbol(&self, stream: Stream, piece: &[u8]) -> Option<u32>
        ensures { result ≡ position (bytes_eq piece.now) (code_of stream self.now).pieces }
    {
        self.stream(stream).symbol(piece)
    }

    /// The same. A piece of at most fifteen bytes is looked for first among the symbols that were found
    /// in this stream, and what is found is kept there.
    #[inline]
    pub fn symbol_near(
        &self,
        stream: Stream,
        piece: &Piece<'_>,
        found: &mut FoundSymbols,
    ) -> Option<u32>
        requires kept { AreFound found.old (code_of stream self.now).pieces }
        ensures symbol { result ≡ position (bytes_eq piece.now) (code_of stream self.now).pieces }
        ensures kept { AreFound found.new (code_of stream self.now).pieces }
    {
        if piece.len() > SHORT {
            return self.symbol(stream, piece.bytes());
        }
        match found.symbol(&PieceKey::of(piece)) {
            Some(symbol) => Some(symbol),
            None => self.symbol_anew(stream, piece, found),
        }
    }

    // The same of a piece of at most fifteen bytes that is not kept. It stands apart, so that above the
    // key of a piece stays a number.
    #[inline(never)]
    fn symbol_anew(
        &self,
        stream: Stream,
        piece: &Piece<'_>,
        found: &mut FoundSymbols,
    ) -> Option<u32>
        requires short { length piece.now ≤ 15 }
        requires kept { AreFound found.old (code_of stream self.now).pieces }
        ensures symbol { result ≡ position (bytes_eq piece.now) (code_of stream self.now).pieces }
        ensures kept { AreFound found.new (code_of stream self.now).pieces }
    {
        let there = self.symbol(stream, piece.bytes());
        if let Some(symbol) = there {
            found.keep(&PieceKey::of(piece), symbol);
        }
        there
    }

    /// The piece of a symbol, which is below the number of the stream's pieces.
    pub fn piece(&self, stream: Stream, symbol: u32) -> &[u8]
        requires { symbol < length (code_of stream self.now).pieces }
        ensures piece { slice_get (code_of stream self.now).pieces symbol ≡ Some result.now }
        ensures short { length result.now ≤ 255 }
    {
        self.stream(stream).piece(symbol)
    }

    /// The entry of the piece of a symbol, where the model has one that holds it: the piece's length,
    /// at most 15, and the piece behind it. A loaded model has such an entry for each piece of at most
    /// fifteen bytes, and one that was made has none.
    #[inline]
    pub fn short_piece(&self, stream: Stream, symbol: u32) -> Option<&[u8; 16]>
        requires { symbol < length (code_of stream self.now).pieces }
        ensures piece { IfSome result (λ entry. slice_get (code_of stream self.now).pieces symbol
            ≡ Some (short_piece entry.now)) }
        ensures length { IfSome result (λ entry. slice_index entry.now 0 ≤ 15) }
    {
        self.stream(stream).short_piece(symbol)
    }

    /// The code of the stream's symbols.
    pub fn canon(&self, stream: Stream) -> &Canon
        ensures lengths { result.now ≡ (code_of stream self.now).lengths }
        ensures keeps { IsStreamCode (code_of stream self.now) }
    {
        self.stream(stream).canon()
    }
}
