//! Bits into a file.
ghost use Rattle.std.specs.Prelude.{◌≡◌, ◌+◌, ◌-◌, ◌*◌, ◌/◌, ◌%◌, ◌≤◌, ◌<◌, ◌^◌, [], IfOk, OnOk, IsSome, length};
ghost use Rattle.std.specs.Bool.{OnFalse, OnTrue};
ghost use Rattle.mg_dev.specs.Names.{full_name};
ghost use Rattle.mg_dev.specs.Files.{AfterReset};
ghost use Rattle.mg_dev.specs.Causes.{HasPutCause};
ghost use Rattle.mg_dev.specs.Moments.{Between};
ghost use Rattle.mg_defs.specs.Bits.{digits, to_byte};
ghost use Rattle.mg_bits.specs.Writer.{WroteTo};
ghost use Rattle.mg_bits.specs.BitWriting.{EndsFile, FillsByte, Holds, HoldsMore, PutsBits, WritesBits, bits_put};

use crate::PageWriter;
use mg_dev::{FileRef, PutErr, Store};
use std::alloc::Global;
use std::marker::Model;

/// Writes bits into a file, the highest of each byte first.
///
/// It doesn't keep what was written: it holds back up to a page of bytes and the bits of a last
/// byte that isn't full. What was written is the bits of the file and then those that it holds.
/// Whatever a call answers, the file grew by the first of the bits that were held or handed over.
#[derive(Drop)]
pub struct BitWriter<'a> {
    bytes: PageWriter<'a>,
    rest: u64,
    count: u32,
    place: u64,
}

impl<'a> Model for BitWriter<'a> {
    ghost use Rattle.std.specs.Prelude.{◌≡◌, ◌<◌, ◌^◌, ◌%◌, ◌++◌, length};
    ghost use Rattle.mg_defs.specs.Bits.{digits, bits_of};
    ghost use Rattle.mg_bits.specs.BitWriting.{BitWriting};

    ghost Value = { BitWriting };

    ghost view = { λ w. record { name = w.bytes.name; buffered = bits_of w.bytes.buffered ++ digits w.count w.rest; place = w.place } };

    ghost invariant = { λ w. (w.count < 8) × (w.rest < 2 ^ w.count) × (w.place % 8 ≡ w.count) × (length w.bytes.buffered < 4096) };
}

impl<'a> BitWriter<'a> {
    /// A writer of a file, which it empties. It takes a buffer of a page.
    pub fn start<S: Store>(alloc: Global, store: &mut S, file: FileRef<'a>) -> Result<Self, PutErr>
        ensures name { IfOk result (λ w. w.name ≡ full_name file.entry.base.now file.entry.part) }
        ensures empty { IsSome (S.files store.old) →
            IfOk result (λ w. bits_put w (S.files store.new) ≡ []) }
        ensures place { IfOk result (λ w. w.place ≡ 0) }
        ensures holds { IfOk result (λ w. Holds w (S.files store.new)) }
        ensures held { IfOk result (λ w. length w.buffered < 32768) }
        ensures started { AfterReset (S.files store.old) (S.files store.new)
            (full_name file.entry.base.now file.entry.part) result }
        ensures wrote { WroteTo (full_name file.entry.base.now file.entry.part) (S.files store.old)
            (S.files store.new)
            (S.reads store.old) (S.reads store.new) }
        ensures cause { HasPutCause (S.faults store.old) (S.faults store.new) result }
    {
        match PageWriter::start(alloc, store, file) {
            Ok(bytes) => Ok(BitWriter {
                bytes,
                rest: 0,
                count: 0,
                place: 0,
            }),
            Err(refusal) => Err(refusal),
        }
    }

    /// The number of bits that were written.
    pub fn place(&self) -> u64
        ensures { result ≡ self.now.place }
    {
        self.place
    }

    /// Writes the lowest bits of a number, at most 64, the highest of them first.
    pub fn put<S: Store>(&mut self, store: &mut S, value: u64, count: u32) -> Result<(), PutErr>
        requires holds { Holds self.old (S.files store.old) }
        requires place { self.old.place ≤ 2 ^ 63 + 2 ^ 62 }
        requires count { count ≤ 64 }
        ensures { Between S.files S.reads S.faults store.old store.new
            (WritesBits self.old self.new (digits count value) result) }
    {
        if self.keep(value, count) {
            return Ok(());
        }
        self.put_by_bytes(store, value, count)
    }

    /// Holds at most 32 bits, where the page has room for eight bytes. False where it has none or there
    /// are more bits, and then nothing changed.
    #[inline(always)]
    fn keep(&mut self, value: u64, count: u32) -> bool
        requires place { self.old.place ≤ 2 ^ 63 + 2 ^ 62 }
        ensures kept { OnTrue result (HoldsMore self.old self.new (digits count value)) }
        ensures same { OnFalse result (self.new ≡ self.old) }
    {
        let _ = &self.bytes; // opens the invariant
        if count > 32 {
            return false;
        }
        let total = self.count + count;
        let word = join(self.rest, self.count, low(value, count), count);
        let over = total % 8;
        if !self
            .bytes
            .keep_first(shifted(word, total), (total / 8) as usize)
        {
            return false;
        }
        self.rest = low(word, over);
        self.count = over;
        self.place += u64::from(count);
        true
    }

    /// The same as `put`, byte after byte.
    #[inline(never)]
    fn put_by_bytes<S: Store>(
        &mut self,
        store: &mut S,
        value: u64,
        count: u32,
    ) -> Result<(), PutErr>
        requires holds { Holds self.old (S.files store.old) }
        requires place { self.old.place ≤ 2 ^ 63 + 2 ^ 62 }
        requires count { count ≤ 64 }
        ensures { Between S.files S.reads S.faults store.old store.new
            (WritesBits self.old self.new (digits count value) result) }
    {
        let _ = &self.bytes; // opens the invariant
        let mut left = count;
        while left > 0 {
            let size = left.min(8);
            left -= size;
            match self.put_piece(store, low(value >> left, size), size) {
                Ok(()) => {}
                Err(refusal) => return Err(refusal),
            }
        }
        Ok(())
    }

    /// Writes zero-bits to the next byte.
    pub fn align<S: Store>(&mut self, store: &mut S) -> Result<(), PutErr>
        requires holds { Holds self.old (S.files store.old) }
        requires place { self.old.place ≤ 2 ^ 63 + 2 ^ 62 }
        ensures { Between S.files S.reads S.faults store.old store.new
            (FillsByte self.old self.new result) }
    {
        let size = self.bits_to_byte();
        self.put_piece(store, 0, size)
    }

    /// The number of bits from the place to the next byte.
    fn bits_to_byte(&self) -> u32
        ensures { result ≡ to_byte self.now.place }
    {
        (8 - (self.place % 8) as u32) % 8
    }

    /// Ends the file: writes zero-bits to the next byte and appends what is held. Then the file
    /// holds the bits that were written.
    pub fn finish<S: Store>(&mut self, store: &mut S) -> Result<(), PutErr>
        requires holds { Holds self.old (S.files store.old) }
        requires place { self.old.place ≤ 2 ^ 63 + 2 ^ 62 }
        ensures { Between S.files S.reads S.faults store.old store.new
            (EndsFile self.old self.new result) }
    {
        let size = self.bits_to_byte();
        match self.put_piece(store, 0, size) {
            Ok(()) => self.flush(store),
            Err(refusal) => Err(refusal),
        }
    }

    /// Appends the bytes that are held.
    fn flush<S: Store>(&mut self, store: &mut S) -> Result<(), PutErr>
        requires whole { self.old.place % 8 ≡ 0 }
        ensures put { Between S.files S.reads S.faults store.old store.new
            (PutsBits self.old self.new [] result) }
        ensures nothing { OnOk result (self.new.buffered ≡ []) }
    {
        self.bytes.finish(store)
    }

    /// Writes at most eight bits.
    #[inline]
    fn put_piece<S: Store>(&mut self, store: &mut S, bits: u64, size: u32) -> Result<(), PutErr>
        requires place { self.old.place ≤ 2 ^ 63 + 2 ^ 62 + 64 }
        requires size { size ≤ 8 }
        requires bits { bits < 2 ^ size }
        ensures { Between S.files S.reads S.faults store.old store.new
            (PutsBits self.old self.new (digits size bits) result) }
    {
        let total = self.count + size;
        let word = join(self.rest, self.count, bits, size);
        if total < 8 {
            self.rest = word;
            self.count = total;
            self.place += u64::from(size);
            return Ok(());
        }
        let over = total - 8;
        match self.bytes.put(store, high(word, over)) {
            Ok(()) => {
                self.rest = low(word, over);
                self.count = over;
                self.place += u64::from(size);
                Ok(())
            }
            Err(refusal) => Err(refusal),
        }
    }
}

/// The number of the bits of two numbers, of so many each.
#[inline]
fn join(rest: u64, count: u32, bits: u64, size: u32) -> u64
    requires high { rest < 2 ^ count }
    requires low { bits < 2 ^ size }
    requires count { count < 8 }
    requires size { size ≤ 32 }
    ensures value { result ≡ rest * 2 ^ size + bits }
    ensures below { result < 2 ^ (count + size) }
{
    rest * (1u64 << size) + bits
}

/// The eight bits above the lowest `over`.
#[inline]
fn high(word: u64, over: u32) -> u8
    requires over { over < 8 }
    requires word { word < 2 ^ (8 + over) }
    ensures { result ≡ word / 2 ^ over }
{
    (word >> over) as u8
}

/// So many bits, with zeros behind them up to 64.
#[inline]
fn shifted(word: u64, total: u32) -> u64
    requires total { total ≤ 40 }
    requires word { word < 2 ^ total }
    ensures { result ≡ word * 2 ^ (64 - total) }
{
    (word << (40 - total)) << 24
}

/// The lowest bits.
#[inline]
fn low(word: u64, over: u32) -> u64
    requires { over ≤ 32 }
    ensures { result ≡ word % 2 ^ over }
{
    word % (1u64 << over)
}
