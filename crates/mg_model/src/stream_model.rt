//! The pieces of one stream and their code.
ghost use Rattle.std.specs.Prelude.{◌≡◌, ◌≢◌, ◌<◌, ◌≤◌, ◌^◌, ℕ, List, [], IsSome, length, position, slice_get, slice_index, None, Some, Err, IfOk, IfSome, OnOk};
ghost use Rattle.std.specs.Option.{option_map};
ghost use Rattle.std.specs.Cmp.Lexicographic.{slice_cmp};
ghost use Rattle.std.specs.List.Sorted.{IsStrictlySortedBy};
ghost use Rattle.std.specs.Ordering.{nat_cmp};
ghost use Rattle.std.specs.Str.{bytes_eq};
ghost use Rattle.mg_dev.specs.Causes.{HasPutCause};
ghost use Rattle.mg_dev.specs.Files.{bytes_at, file_bytes};
ghost use Rattle.mg_dev.specs.Moments.{Between};
ghost use Rattle.mg_dev.specs.Names.{full_name};
ghost use Rattle.mg_bits.specs.Writer.{WroteTo};
ghost use Rattle.mg_defs.specs.CodedText.{IsHuffman, pieces_part};
ghost use Rattle.mg_defs.specs.Vocabulary.{sorted_of, counts_of};
ghost use Rattle.mg_model.specs.Blocks.{short_piece};
ghost use Rattle.mg_model.specs.Damage.{AnswersStream, IsPart};
ghost use Rattle.mg_defs.specs.Means.{IsStreamCode};
ghost use Rattle.mg_front.specs.Fronting.{Took};
ghost use Rattle.mg_model.specs.Loading.{LoadsStream};
ghost use Rattle.mg_model.specs.Read.{code_read};
ghost use Rattle.mg_model.specs.Vocabularies.{pieces_of};

use crate::Vocab;
use crate::dropping::without;
use crate::pieces::Pieces;
use crate::reading::{ReadPieces, checked_code, expect_room, read_pieces};
use mg_canon::Canon;
use mg_dev::{FileRef, Part, PartErr, PutErr, Store};
use mg_front::FrontWriter;
use std::alloc::{AllocError, Global};
use std::marker::Model;

/// The pieces of one stream in the order of their bytes, and the code of their numbers.
#[derive(Drop)]
pub struct StreamModel {
    pieces: Pieces,
    canon: Canon,
}

impl Model for StreamModel {
    ghost use Rattle.mg_defs.specs.CodedText.{StreamCode};

    ghost Value = { StreamCode };

    ghost use Rattle.mg_defs.specs.Means.{IsStreamCode};
    ghost use Rattle.mg_model.specs.Pieces.{pieces_in};

    ghost view = { λ m. record { pieces = pieces_in m.pieces; lengths = m.canon } };

    ghost invariant = { λ m. IsStreamCode (record { pieces = pieces_in m.pieces; lengths = m.canon }) };
}

// Sorts the counted pieces, and answers the code of their counts, for writing.
fn sorted_code(alloc: Global, vocab: &mut Vocab) -> Result<Canon, AllocError>
    ensures pieces { OnOk result (pieces_of vocab.new ≡ sorted_of vocab.old) }
    ensures lengths { IfOk result (λ code. IsHuffman (counts_of vocab.old) code) }
    ensures code { IfOk result (λ code.
        IsStreamCode (record { pieces = pieces_of vocab.new; lengths = code })) }
{
    vocab.sort()?;
    let counts = vocab.counts()?;
    let mut lengths = Vec::new(alloc);
    mg_huff::lengths(alloc, &counts, &mut lengths)?;
    let canon = Canon::for_writing(alloc, &lengths)?;
    Ok(canon)
}

impl StreamModel {
    /// The model of counted pieces.
    pub fn of(alloc: Global, vocab: Vocab) -> Result<Self, AllocError>
        ensures pieces { IfOk result (λ model. model.pieces ≡ sorted_of vocab) }
        ensures lengths { IfOk result (λ model. IsHuffman (counts_of vocab) model.lengths) }
    {
        let mut vocab = vocab;
        match sorted_code(alloc, &mut vocab) {
            Ok(canon) => Ok(StreamModel {
                pieces: Pieces::Counted(vocab),
                canon,
            }),
            Err(refusal) => Err(without(vocab, refusal)),
        }
    }

    /// Writes the pieces and their lengths into a part.
    pub fn write<S: Store>(
        &self,
        alloc: Global,
        store: &mut S,
        file: FileRef<'_>,
    ) -> Result<(), PutErr>
        ensures bytes { OnOk result (IsSome (S.files store.old) →
            file_bytes file.entry (S.files store.new) ≡ pieces_part self.now) }
        ensures wrote { WroteTo (full_name file.entry.base.now file.entry.part) (S.files store.old)
            (S.files store.new)
            (S.reads store.old) (S.reads store.new) }
        ensures cause { HasPutCause (S.faults store.old) (S.faults store.new) result }
    {
        let mut writer = match FrontWriter::start(alloc, store, file, None, 1) {
            Ok(writer) => writer,
            Err(refusal) => return Err(refusal),
        };
        self.write_entries(store, &mut writer)
    }

    // Writes the pieces and their lengths through a writer that took no entry.
    fn write_entries<S: Store>(
        &self,
        store: &mut S,
        writer: &mut FrontWriter<'_>,
    ) -> Result<(), PutErr>
        requires took { Took writer.old (S.files store.old) [] }
        requires width { writer.old.width ≡ 1 }
        requires alone { option_map (λ places. places.name) writer.old.places ≡ None }
        ensures bytes { OnOk result (IsSome (S.files store.old) →
            bytes_at (S.files store.new) writer.old.strings.name ≡ pieces_part self.now) }
        ensures wrote { WroteTo writer.old.strings.name (S.files store.old) (S.files store.new)
            (S.reads store.old) (S.reads store.new) }
        ensures cause { HasPutCause (S.faults store.old) (S.faults store.new) result }
    {
        for symbol in 0..self.canon.count() {
            let piece = self.pieces.piece(symbol);
            writer.push(store, piece, &[self.canon.length(symbol)])?;
        }
        writer.finish(store)
    }

    /// Reads the model of so many pieces from a part. Memory is wanted, and the part is read, only
    /// where it has two bytes for each. It reads no page twice, and one behind the part's end only
    /// where the device fails or the entries are damaged.
    pub fn load<S: Store>(
        alloc: Global,
        store: &mut S,
        file: FileRef<'_>,
        count: u32,
    ) -> Result<Self, PartErr>
        requires { count ≤ 2 ^ 22 }
        ensures { Between S.files S.reads S.faults store.old store.new
            (LoadsStream file.entry.base.now file.entry.part count result) }
    {
        match expect_room(store, &file, count) {
            Ok(()) => {}
            Err(refusal) => return Err(refusal),
        }
        match read_pieces(alloc, store, file, count) {
            Ok(read) => Self::of_read(alloc, file.part, read),
            Err(refusal) => Err(refusal),
        }
    }

    // The model of pieces that were read, and that rise.
    fn of_read(alloc: Global, part: Part, read: ReadPieces) -> Result<Self, PartErr>
        requires each { length read.lengths.items ≡ length read.pieces }
        requires rises { IsStrictlySortedBy (slice_cmp nat_cmp) read.pieces }
        ensures answer { (count : ℕ) (bytes : List ℕ) → IsPart count bytes (code_read read) →
            AnswersStream part count bytes result }
        ensures device { result ≢ Err PartErr.Device }
    {
        // That there are no more than 2^22 pieces, each of at most 255 bytes, is told with their number.
        let _ = read.pieces.len();
        match checked_code(alloc, part, &read) {
            Ok(canon) => Ok(Self::of_code(read, canon)),
            Err(refusal) => Err(without(read, refusal)),
        }
    }

    // The model of pieces that were read, and of the code of their lengths.
    fn of_code(read: ReadPieces, canon: Canon) -> Self
        requires code { IsStreamCode (code_read read) }
        requires canon { canon ≡ read.lengths.items }
        ensures { result ≡ code_read read }
    {
        let ReadPieces { mut pieces, .. } = read;
        pieces.shrink();
        StreamModel {
            pieces: Pieces::Loaded(pieces),
            canon,
        }
    }

    /// The symbol of a piece.
    pub fn symbol(&self, piece: &[u8]) -> Option<u32>
        ensures { result ≡ position (bytes_eq piece.now) self.now.pieces }
    {
        // For the proof: the pieces of a model rise.
        let _ = &self.canon;
        self.pieces.symbol(piece)
    }

    /// The piece of a symbol.
    pub fn piece(&self, symbol: u32) -> &[u8]
        requires { symbol < length self.now.pieces }
        ensures piece { slice_get self.now.pieces symbol ≡ Some result.now }
        ensures short { length result.now ≤ 255 }
    {
        self.pieces.piece(symbol)
    }

    /// The entry of the piece of a symbol, where the entry holds the piece: its length, at most 15,
    /// and the piece behind it.
    #[inline]
    pub fn short_piece(&self, symbol: u32) -> Option<&[u8; 16]>
        requires { symbol < length self.now.pieces }
        ensures piece { IfSome result (λ entry. slice_get self.now.pieces symbol
            ≡ Some (short_piece entry.now)) }
        ensures length { IfSome result (λ entry. slice_index entry.now 0 ≤ 15) }
    {
        self.pieces.short_piece(symbol)
    }

    /// The code of the symbols.
    pub fn canon(&self) -> &Canon
        ensures lengths { result.now ≡ self.now.lengths }
        ensures keeps { IsStreamCode self.now }
    {
        &self.canon
    }
}
