//! A canonical code: the codewords of given lengths, both ways.
ghost use Rattle.std.specs.Prelude.{◌≡◌, ℕ, ◌+◌, ◌-◌, ◌*◌, ◌/◌, ◌^◌, ◌<◌, ◌≤◌, ◌↔◌, ◌⊎◌, Option, Some, length, slice_index, Ok, Err, IfOk, IfSome, IfNone, IsSome, OnOk, MatchOption};
ghost use Rattle.std.specs.Bool.{OnTrue, OnFalse};
ghost use Rattle.mg_defs.specs.Answers.{Below};
ghost use Rattle.mg_defs.specs.Canon.{AreGood, codeword};
ghost use Rattle.mg_dev.specs.Causes.{HasPutCause};
ghost use Rattle.mg_dev.specs.Files.{Files};
ghost use Rattle.mg_bits.specs.BitWriting.{Holds, WroteBits};
ghost use Rattle.mg_bits.specs.CodeAnswers.{AnswersCode};
ghost use Rattle.mg_bits.specs.Feed.{Device, HasBits, ToldBits};
ghost use Rattle.mg_bits.specs.NextBits.{ReadNext};
ghost use Rattle.mg_bits.specs.Writer.{WroteTo};
ghost use Rattle.mg_canon.specs.Symbols.{FirstFound, ReadsSymbol};
ghost use Rattle.mg_canon.specs.Tables.{IsBeginning, IsStart, IsSymbolAt, found_in, place_of};
ghost use Rattle.mg_canon.specs.Refusals.{IsFirstBad, IsUnfilled, HaveLengths};

use crate::CanonErr;
use crate::bits::number_of;
use crate::check::check;
use crate::found::{entry_of, size_in, symbol_in};
use crate::tables::{ByLength, count_lengths, first_codewords, first_places, number};
use mg_bits::{BitReader, BitWriter, CodeErr, Feed, refused};
use mg_dev::{PutErr, Store};
use std::alloc::{AllocError, Global};
use std::marker::Model;

/// A canonical code, seen as the list of its codewords' lengths.
///
/// It holds no tree. The codewords of one length are consecutive numbers, so two small tables by
/// length, of the first number and of the place of its symbol, and one of the symbols sorted by
/// length turn bits into a symbol; a table of the codewords' numbers turns a symbol into bits. That
/// is 9 bytes a symbol. A codeword of at most twelve bits is found by one look at a table of what
/// each twelve bits begin with, which takes 16 KiB. A code looks at ten bits, in 4 KiB, where it has
/// fewer than 4,096 symbols, so that it is soon made, or where few codewords are longer.
///
/// A code for writing has neither the symbols sorted by length nor the table of first bits, so it
/// takes 5 bytes a symbol. It reads the same symbols, but seeks each among all.
#[derive(Drop)]
pub struct Canon {
    lengths: Vec<u8>,
    values: Vec<u32>,
    firsts: ByLength,
    offsets: ByLength,
    symbols: Vec<u32>,
    // How many bits an entry of `beginnings` is found by.
    width: u32,
    // The codewords that each so many bits begin with.
    beginnings: Vec<u32>,
}

impl Model for Canon {
    ghost use Rattle.std.specs.Prelude.{ℕ, List};
    ghost use Rattle.mg_canon.specs.Tables.{AreTablesWithBeginnings};

    ghost Value = { List ℕ };

    ghost view = { λ c. c.lengths.items };

    ghost invariant = { λ c. AreTablesWithBeginnings c.lengths.items c.values.items c.firsts c.offsets c.symbols.items c.width c.beginnings.items };
}

impl Canon {
    /// The code of these lengths, in bits; the symbols are the places in the list. Only good
    /// lengths have one: those of two or more symbols are each from 1 to 48 and leave no string of
    /// bits over, and that of a single symbol is 1.
    pub fn new(alloc: Global, lengths: &[u8]) -> Result<Canon, CanonErr>
        requires { length lengths.now ≤ 2 ^ 22 }
        ensures lengths { IfOk result (λ code. code ≡ lengths.now) }
        ensures good { IfOk result (λ _. AreGood lengths.now) }
        ensures bad_length { (symbol l : ℕ) → (result ≡ Err (CanonErr.BadLength symbol l))
            ↔ IsFirstBad lengths.now symbol l }
        ensures kraft { (sum : ℕ) → (result ≡ Err (CanonErr.Kraft sum))
            ↔ IsUnfilled lengths.now sum }
    {
        if let Err(refusal) = check(lengths) {
            return Err(refusal);
        }
        match made(alloc, lengths) {
            Ok(code) => Ok(code),
            Err(_) => Err(CanonErr::Memory),
        }
    }

    /// The code of good lengths, for writing: it takes less memory, and is slow to read by.
    pub fn for_writing(alloc: Global, lengths: &[u8]) -> Result<Canon, AllocError>
        requires few { length lengths.now ≤ 2 ^ 22 }
        requires good { AreGood lengths.now }
        ensures { IfOk result (λ code. code ≡ lengths.now) }
    {
        let code = tables_of(alloc, lengths)?;
        Ok(code.without_symbols(alloc))
    }

    /// The number of symbols.
    pub fn count(&self) -> u32
        ensures count { result ≡ length self.now }
        ensures most { length self.now ≤ 2 ^ 22 }
        ensures good { AreGood self.now }
    {
        self.lengths.len() as u32
    }

    /// How many bits the codeword of a symbol has.
    pub fn length(&self, symbol: u32) -> u8
        requires symbol { symbol < length self.now }
        ensures is { result ≡ slice_index self.now symbol }
        ensures codeword { result ≡ length (codeword self.now symbol) }
    {
        self.lengths[symbol as usize]
    }

    /// Writes the codeword of a symbol.
    pub fn put<S: Store>(
        &self,
        writer: &mut BitWriter,
        store: &mut S,
        symbol: u32,
    ) -> Result<(), PutErr>
        requires symbol { symbol < length self.now }
        requires holds { Holds writer.old (S.files store.old) }
        requires place { writer.old.place ≤ 2 ^ 63 }
        ensures holds { OnOk result (Holds writer.new (S.files store.new)) }
        ensures bits { OnOk result (WroteBits writer.old writer.new (S.files store.old)
            (S.files store.new) (codeword self.now symbol)) }
        ensures name { writer.new.name ≡ writer.old.name }
        ensures wrote { WroteTo writer.old.name (S.files store.old) (S.files store.new)
            (S.reads store.old) (S.reads store.new) }
        ensures cause { HasPutCause (S.faults store.old) (S.faults store.new) result }
    {
        let symbol = symbol as usize;
        let value = u64::from(self.values[symbol]);
        let length = u32::from(self.lengths[symbol]);
        writer.put(store, value, length)
    }

    /// Reads a symbol: the one whose codeword stands at the place. The code has a symbol. Where the
    /// bits end within a codeword it answers `End`; where no codeword stands there and the bits are
    /// not the front of one, which is so only at a one-bit where there is a single symbol, `Over`.
    /// After a refusal the place is the one before, and the reader may be used again.
    pub fn get<F: Feed>(&self, reader: &mut BitReader<F>, dev: &mut F::Dev) -> Result<u32, CodeErr>
        requires some { 0 < length self.now }
        requires fits { F.fits reader.old.feed (F.device dev.old).files }
        requires place { reader.old.place ≤ 2 ^ 63 }
        ensures { ReadsSymbol self.now F.fits F.feeding F.device reader.old reader.new dev.old dev.new
            result }
    {
        match self.get_held(reader) {
            Some(symbol) => Ok(symbol),
            None => self.get_by_bits(reader, dev),
        }
    }

    /// Reads a symbol where the reader holds the bits of its codeword: what `get` does at `Ok`, on
    /// whatever device the reader agrees with, for none is asked. It answers wherever the page that is
    /// held has the eight bytes from the place's byte on, unless there is a single symbol. At `None`
    /// the place is the one before. The code has a symbol.
    #[inline]
    pub fn get_held<F: Feed>(&self, reader: &mut BitReader<F>) -> Option<u32>
        requires some { 0 < length self.now }
        requires place { reader.old.place ≤ 2 ^ 63 }
        ensures feed { reader.new.feed ≡ reader.old.feed }
        ensures read { IfSome result (λ s. (dev : Device) →
            ReadNext F.feeding (λ d. d) reader.old reader.new dev dev
            (length (codeword self.now s))) }
        ensures place { MatchOption result (reader.new.place ≡ reader.old.place)
            (λ s. reader.new.place
            ≡ reader.old.place + length (codeword self.now s)) }
        ensures told { ToldBits (F.feeding reader.old.feed) (F.fits reader.old.feed)
            reader.old.place result
            (λ s. AnswersCode (Ok s) (Below (length self.now)) (codeword self.now) 1
            reader.old.place) }
        ensures symbol { IfSome result (λ s. s < length self.now) }
        ensures some { (files : Option Files) → F.fits reader.old.feed files → 2 ≤ length self.now →
            HasBits (F.feeding reader.old.feed) files (8 * (reader.old.place / 8)) 64 →
            IsSome result }
    {
        let next = match reader.peek() {
            Some(next) => next,
            None => return None,
        };
        let entry = self.first_of(next);
        let size = size_in(entry);
        if size == 0 {
            return None;
        }
        reader.seek(reader.place() + u64::from(size));
        Some(symbol_in(entry))
    }

    /// The entry of the symbol whose codeword 57 bits begin with: none is longer than 48. There is one
    /// but for a single symbol and a one-bit, where the answer has no bits.
    #[inline(always)]
    pub(crate) fn first_of(&self, next: u64) -> u32
        requires next { next < 2 ^ 57 }
        requires some { 0 < length self.now }
        ensures found { 0 < (found_in result).size →
            FirstFound self.now next (Some (found_in result)) }
        ensures none { (found_in result).size ≡ 0 → FirstFound self.now next None }
    {
        let entry = self.first_by_table(next);
        if size_in(entry) > 0 {
            return entry;
        }
        self.first_by_lengths(next, symbol_in(entry))
    }

    /// The same by the table. Where it answers no bits, the symbol tells with how many bits the way by
    /// lengths begins.
    #[inline(always)]
    fn first_by_table(&self, next: u64) -> u32
        requires next { next < 2 ^ 57 }
        ensures found { 0 < (found_in result).size →
            FirstFound self.now next (Some (found_in result)) }
        ensures start { (found_in result).size ≡ 0 →
            IsStart self.now next (found_in result).symbol }
    {
        let front = (next >> (57 - self.width)) as usize;
        if front >= self.beginnings.len() {
            return entry_of(1, 0);
        }
        self.beginnings[front]
    }

    /// The same by the lengths of codewords, from so many bits on.
    #[inline(always)]
    fn first_by_lengths(&self, next: u64, start: u32) -> u32
        requires next { next < 2 ^ 57 }
        requires some { 0 < length self.now }
        requires start { IsStart self.now next start }
        ensures found { 0 < (found_in result).size →
            FirstFound self.now next (Some (found_in result)) }
        ensures none { (found_in result).size ≡ 0 → FirstFound self.now next None }
    {
        let firsts = &self.firsts;
        let mut read = start as usize;
        while next >> (57 - read) < u64::from(firsts[read]) {
            read += 1;
        }
        let past = (next >> (57 - read)) - u64::from(firsts[read]);
        let index = (u64::from(self.offsets[read]) + past) as usize;
        match self.symbol_at(index) {
            Some(symbol) => entry_of(symbol, read as u32),
            None => 0,
        }
    }

    /// The symbol at a place among those sorted by length. There is none behind the last.
    #[inline(always)]
    fn symbol_at(&self, place: usize) -> Option<u32>
        ensures is { IfSome result (IsSymbolAt self.now place) }
        ensures within { IfSome result (λ _. place < length self.now) }
        ensures none { IfNone result (length self.now ≤ place) }
    {
        if place < self.symbols.len() {
            return Some(self.symbols[place]);
        }
        self.sought(place)
    }

    /// The same, sought among all symbols: a code for writing has no table of them.
    #[inline(never)]
    fn sought(&self, place: usize) -> Option<u32>
        ensures is { IfSome result (IsSymbolAt self.now place) }
        ensures within { IfSome result (λ _. place < length self.now) }
        ensures none { IfNone result (length self.now ≤ place) }
    {
        if place >= self.lengths.len() {
            return None;
        }
        Some(self.symbol_of(place))
    }

    // The symbol at a place: that of each symbol is looked at in turn.
    fn symbol_of(&self, place: usize) -> u32
        ensures { IsSymbolAt self.now place result }
    {
        for symbol in 0..self.count() {
            if self.place_of(symbol) == place {
                return symbol;
            }
        }
        0
    }

    /// The place of a symbol among those sorted by length.
    fn place_of(&self, symbol: u32) -> usize
        requires { symbol < length self.now }
        ensures { result ≡ place_of self.now symbol }
    {
        let symbol = symbol as usize;
        let length = usize::from(self.lengths[symbol]);
        (self.offsets[length] + (self.values[symbol] - self.firsts[length])) as usize
    }

    /// With how many bits the way by lengths may begin for 57 bits up to this number: with one more
    /// than so many, and than each more up to 32, which are the front of longer codewords alone.
    fn start_at(&self, width: u32, most: u64) -> u32
        requires { width ≤ 12 }
        ensures { IsStart self.now most result }
    {
        let mut start = 1;
        if self.firsts[10] == 0 {
            return start;
        }
        for read in width..33 {
            if most >> (57 - read) >= u64::from(self.firsts[read as usize]) {
                return start;
            }
            start = read + 1;
        }
        start
    }

    /// The entry of what so many bits begin with. Where no codeword is among them, its symbol tells
    /// with how many bits the way by lengths begins.
    fn beginning(&self, width: u32, front: u64) -> u32
        requires width { width ≤ 12 }
        requires front { front < 2 ^ width }
        requires some { 0 < length self.now }
        requires few { length self.now ≤ 2 ^ 22 }
        ensures { IsBeginning self.now width front (found_in result) }
    {
        let least = front << (57 - width);
        let entry = self.first_by_lengths(least, 1);
        if size_in(entry) > 0 && size_in(entry) <= width {
            return entry;
        }
        let more = (1u64 << (57 - width)) - 1;
        entry_of(self.start_at(width, least + more), 0)
    }

    /// The code with the table of what its first bits begin with.
    fn with_beginnings(self, alloc: Global) -> Result<Canon, AllocError>
        ensures { IfOk result (λ code. code ≡ self) }
    {
        if self.count() == 0 {
            return Ok(self);
        }
        let width = self.width;
        let count = 1u64 << width;
        let mut beginnings = Vec::with_capacity(alloc, count as usize)?;
        for front in 0..count {
            beginnings.push(self.beginning(width, front))?;
        }
        let mut code = self;
        code.beginnings = beginnings;
        Ok(code)
    }

    /// The code with no table of symbols.
    fn without_symbols(self, alloc: Global) -> Canon
        ensures { result ≡ self }
    {
        let mut code = self;
        code.symbols = Vec::new(alloc);
        code
    }

    /// Reads a symbol bit by bit. It stands apart so that `get` is short where the table tells the
    /// codeword.
    #[inline(never)]
    fn get_by_bits<F: Feed>(
        &self,
        reader: &mut BitReader<F>,
        dev: &mut F::Dev,
    ) -> Result<u32, CodeErr>
        requires some { 0 < length self.now }
        requires fits { F.fits reader.old.feed (F.device dev.old).files }
        requires place { reader.old.place ≤ 2 ^ 63 }
        ensures { ReadsSymbol self.now F.fits F.feeding F.device reader.old reader.new dev.old dev.new
            result }
    {
        let start = reader.place();
        let mut value = 0u32;
        let mut read = 0usize;
        let firsts = &self.firsts;
        while needs_bit(firsts, read, value) {
            match reader.bit(dev) {
                Ok(bit) => {
                    value = 2 * value + number_of(bit);
                    read += 1;
                }
                Err(refusal) => {
                    reader.seek(start);
                    return Err(refused(refusal, start));
                }
            }
        }
        let place = (self.offsets[read] + (value - firsts[read])) as usize;
        match self.symbol_at(place) {
            Some(symbol) => Ok(symbol),
            None => {
                reader.seek(start);
                Err(CodeErr::Over {
                    at: start,
                    limit: 1,
                })
            }
        }
    }
}

/// Whether another bit of a codeword is to be read: none was yet, or the bits are a number below
/// the first codeword of their length.
#[inline]
fn needs_bit(firsts: &ByLength, read: usize, value: u32) -> bool
    requires { read ≤ 48 }
    ensures more { OnTrue result ((read ≡ 0) ⊎ (value < slice_index firsts.now read)) }
    ensures some { OnFalse result (1 ≤ read) }
    ensures stop { OnFalse result (slice_index firsts.now read ≤ value) }
{
    if read == 0 {
        return true;
    }
    value < firsts[read]
}

/// By how many first bits a code of so many symbols is looked up. Ten are enough where no more than an
/// eighth of all strings of bits begin with a longer codeword.
fn width_of(symbols: usize, firsts: &ByLength) -> u32
    ensures { result ≤ 12 }
{
    if symbols < 4096 || firsts[10] <= 128 {
        10
    } else {
        12
    }
}

/// The code of good lengths.
fn made(alloc: Global, lengths: &[u8]) -> Result<Canon, AllocError>
    requires few { length lengths.now ≤ 2 ^ 22 }
    requires all { HaveLengths (length lengths.now) lengths.now }
    requires good { AreGood lengths.now }
    ensures { IfOk result (λ code. code ≡ lengths.now) }
{
    let code = tables_of(alloc, lengths)?;
    code.with_beginnings(alloc)
}

/// The same, with no table of first bits.
fn tables_of(alloc: Global, lengths: &[u8]) -> Result<Canon, AllocError>
    requires few { length lengths.now ≤ 2 ^ 22 }
    requires all { HaveLengths (length lengths.now) lengths.now }
    requires good { AreGood lengths.now }
    ensures { IfOk result (λ code. code ≡ lengths.now) }
{
    let counts = count_lengths(lengths);
    let firsts = first_codewords(&counts);
    let offsets = first_places(&counts);
    let numbered = number(alloc, lengths, &firsts, &offsets)?;
    let symbols = lengths.len();
    let lengths = lengths.to_vec(alloc)?;
    Ok(Canon {
        lengths,
        values: numbered.values,
        firsts,
        offsets,
        symbols: numbered.symbols,
        width: width_of(symbols, &firsts),
        beginnings: Vec::new(alloc),
    })
}
