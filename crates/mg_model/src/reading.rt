//! The pieces of a part, and the damages that they may have.
ghost use Rattle.std.specs.Prelude.{◌≡◌, ◌≢◌, ◌+◌, ◌-◌, ◌*◌, ◌^◌, ◌≤◌, ◌<◌, ◌++◌, ◌∷◌, [], ℕ, List, IsSome, length, min, take, Err, IfOk, OnOk};
ghost use Rattle.mg_dev.specs.Files.{SameReads, file_bytes};
ghost use Rattle.mg_dev.specs.Moments.{Between};
ghost use Rattle.mg_dev.specs.PartCauses.{HasPartCause};
ghost use Rattle.mg_dev.specs.Names.{file_name};
ghost use Rattle.mg_canon.specs.Refusals.{most_bits};
ghost use Rattle.mg_defs.specs.Front.{shared};
ghost use Rattle.mg_defs.specs.CodedText.{piece_entries};
ghost use Rattle.mg_front.specs.Entries.{entry_of, string_of};
ghost use Rattle.mg_defs.specs.Canon.{AreGood};
ghost use Rattle.mg_model.specs.Damage.{AnswersRoom, IsPart};
ghost use Rattle.mg_model.specs.Sizes.{entry_size, first_sizes};
ghost use Rattle.mg_model.specs.Read.{AnswersCode, HasNone, IsAtFirst, ReadsPieces, code_read, read_if};

use crate::block::PieceBlock;
use crate::dropping::without;
use crate::entry_walk::EntryWalk;
use mg_canon::{Canon, CanonErr};
use mg_dev::{Bad, FileRef, Part, PartErr, Store};
use mg_front::{FrontEntry, FrontWalk, shared};
use std::alloc::{AllocError, Global};

/// The pieces of a part in their order, each with the length of its codeword.
#[derive(Drop)]
pub struct ReadPieces {
    pub pieces: PieceBlock,
    pub lengths: Vec<u8>,
}

/// Refuses a part that has fewer bytes than so many pieces take, two each. A missing part has no
/// bytes.
pub fn expect_room<S: Store>(store: &mut S, file: &FileRef<'_>, count: u32) -> Result<(), PartErr>
    ensures answer { IsSome (S.files store.old) →
        AnswersRoom file.now.part count (file_bytes file.now (S.files store.old)) result }
    ensures files { S.files store.new ≡ S.files store.old }
    ensures reads { SameReads (S.reads store.old) (S.reads store.new) }
    ensures cause { HasPartCause (S.faults store.old) (S.faults store.new) result }
{
    let size = match store.size(file) {
        Ok(size) => size.unwrap_or(0),
        Err(_) => return Err(PartErr::Device),
    };
    let least = 2 * u64::from(count);
    if size < least {
        return Err(PartErr::Bad(Bad {
            part: file.part,
            at: 0,
            low: least,
            high: u64::MAX,
            found: size,
        }));
    }
    Ok(())
}

/// The length in an entry's field, its first byte.
fn length_in(entry: &FrontEntry) -> u8
    ensures { take 1 entry.now.field ≡ result ∷ [] }
{
    entry.field[0]
}

impl ReadPieces {
    /// Adds a piece with its length. There are fewer than 2^22 before.
    fn push(&mut self, entry: &FrontEntry) -> Result<(), AllocError>
        requires each { length self.old.lengths.items ≡ length self.old.pieces }
        requires few { length self.old.pieces < 2 ^ 22 }
        ensures entries { OnOk result (piece_entries (code_read self.new)
            ≡ piece_entries (code_read self.old) ++ entry_of 1 entry.now ∷ []) }
        ensures pieces { OnOk result (self.new.pieces
            ≡ self.old.pieces ++ string_of entry.now ∷ []) }
        ensures each { OnOk result (length self.new.lengths.items ≡ length self.new.pieces) }
        ensures count { OnOk result (length self.new.pieces ≡ length self.old.pieces + 1) }
    {
        self.pieces.push_of(&entry.string, entry.length)?;
        self.lengths.push(length_in(entry))?;
        Ok(())
    }
}

/// Reads the pieces of a part, and how many bits the codeword of each has. It reads no page twice,
/// and one behind the part's end only where the device fails or the entries are damaged. The lengths
/// are not tested.
pub fn read_pieces<S: Store>(
    alloc: Global,
    store: &mut S,
    file: FileRef<'_>,
    count: u32,
) -> Result<ReadPieces, PartErr>
    requires { count ≤ 2 ^ 22 }
    ensures { Between S.files S.reads S.faults store.old store.new
        (ReadsPieces (file_name file.entry) file.entry.part count result) }
{
    match FrontWalk::load(alloc, store, file, 1, count) {
        Ok(walk) => read_by(alloc, store, walk, count),
        Err(refusal) => Err(refusal),
    }
}

/// Reads the pieces by a walk over their entries, which is dropped here: so who loads it has none of its
/// parts to drop.
fn read_by<S: Store, W: EntryWalk<S> + Drop>(
    alloc: Global,
    store: &mut S,
    walk: W,
    count: u32,
) -> Result<ReadPieces, PartErr>
    requires first { IsAtFirst (W.walking walk) (S.files store.old) }
    requires few { (W.walking walk).count ≤ 2 ^ 22 }
    ensures { Between S.files S.reads S.faults store.old store.new
        (ReadsPieces (W.walking walk).feed.name (W.walking walk).feed.part (W.walking walk).count
        result) }
{
    let mut read = match room_for(alloc, count) {
        Ok(read) => read,
        Err(_) => return Err(PartErr::Memory),
    };
    let mut walk = walk;
    match read_entries(store, &mut walk, &mut read) {
        Ok(()) => Ok(read),
        Err(refusal) => Err(without(read, refusal)),
    }
}

/// Reads the pieces of all entries.
fn read_entries<S: Store, W: EntryWalk<S>>(
    store: &mut S,
    walk: &mut W,
    read: &mut ReadPieces,
) -> Result<(), PartErr>
    requires first { IsAtFirst (W.walking walk.old) (S.files store.old) }
    requires few { (W.walking walk.old).count ≤ 2 ^ 22 }
    requires none { HasNone read.old }
    ensures { Between S.files S.reads S.faults store.old store.new
        (ReadsPieces (W.walking walk.old).feed.name (W.walking walk.old).feed.part
        (W.walking walk.old).count (read_if result read.new)) }
{
    let mut entry = FrontEntry::new();
    'entries: loop {
        match walk.next_entry(store, &mut entry) {
            Ok(true) => {}
            Ok(false) => return Ok(()),
            Err(refusal) => return Err(refusal),
        }
        match read.push(&entry) {
            Ok(()) => {}
            Err(_) => return Err(PartErr::Memory),
        }
    }
}

/// No pieces, and room for the places and lengths of so many.
fn room_for(alloc: Global, count: u32) -> Result<ReadPieces, AllocError>
    ensures { IfOk result HasNone }
{
    let pieces = PieceBlock::with_capacity(alloc, count)?;
    let lengths = Vec::with_capacity(alloc, count as usize)?;
    Ok(ReadPieces { pieces, lengths })
}

/// How many bytes the whole entry of a piece has.
fn whole_size(piece: &[u8]) -> u64
    requires { length piece.now ≤ 255 }
    ensures { result ≡ length piece.now + 2 }
{
    piece.len() as u64 + 2
}

/// How many bytes the entry of a piece has that tells only how the piece differs from the one before.
fn cut_size(before: &[u8], piece: &[u8]) -> u64
    requires { length piece.now ≤ 255 }
    ensures { result ≡ length piece.now - shared before.now piece.now + 3 }
{
    (piece.len() - shared(before, piece)) as u64 + 3
}

/// How many bytes the entry at a place has.
fn entry_size(pieces: &PieceBlock, place: u32) -> u64
    requires { place < length pieces.now }
    ensures size { result ≡ entry_size pieces.now place }
    ensures most { result ≤ 258 }
    ensures least { 2 ≤ result }
{
    let piece = pieces.piece(place);
    if place % 4 == 0 {
        whole_size(piece)
    } else {
        cut_size(pieces.piece(place - 1), piece)
    }
}

/// The place in the part behind the entry of a symbol.
fn entry_end(pieces: &PieceBlock, symbol: u32) -> u64
    requires { symbol < length pieces.now }
    ensures end { result ≡ first_sizes pieces.now (symbol + 1) }
    ensures least { 2 ≤ result }
{
    let mut end = 0;
    for place in 0..symbol {
        end += entry_size(pieces, place);
    }
    end + entry_size(pieces, symbol)
}

/// The code of the lengths that were read.
pub fn checked_code(alloc: Global, part: Part, read: &ReadPieces) -> Result<Canon, PartErr>
    requires each { length read.now.lengths.items ≡ length read.now.pieces }
    requires few { length read.now.pieces ≤ 2 ^ 22 }
    ensures answer { (count : ℕ) (bytes : List ℕ) → IsPart count bytes (code_read read.now) →
        AnswersCode part count bytes result }
    ensures lengths { IfOk result (λ canon. canon ≡ read.now.lengths.items) }
    ensures good { IfOk result (λ canon. AreGood read.now.lengths.items) }
    ensures device { result ≢ Err PartErr.Device }
{
    match Canon::new(alloc, &read.lengths) {
        Ok(canon) => Ok(canon),
        Err(CanonErr::BadLength { symbol, length }) => Err(PartErr::Bad(Bad {
            part,
            at: entry_end(&read.pieces, symbol) - 1,
            low: 1,
            high: most_bits(read.lengths.len()),
            found: u64::from(length),
        })),
        Err(CanonErr::Kraft { sum }) => Err(PartErr::Bad(Bad {
            part,
            at: 0,
            low: 1 << 48,
            high: 1 << 48,
            found: told(sum),
        })),
        Err(CanonErr::Memory) => Err(PartErr::Memory),
    }
}

/// The most bits of a codeword among those of so many symbols.
fn most_bits(symbols: usize) -> u64
    ensures { result ≡ most_bits symbols }
{
    if symbols == 1 { 1 } else { 48 }
}

/// The number, or 2^64 - 1 where it is greater.
fn told(sum: u128) -> u64
    ensures { result ≡ min sum (2 ^ 64 - 1) }
{
    sum.min(u128::from(u64::MAX)) as u64
}
