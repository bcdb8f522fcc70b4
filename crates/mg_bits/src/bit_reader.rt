//! Bits of a feed.
ghost use Rattle.std.specs.Prelude.{◌≡◌, ◌+◌, ◌-◌, ◌*◌, ◌/◌, ◌≤◌, ◌<◌, ◌^◌, ◌∷◌, [], IfOk, ◌%◌, Option, Some, IfSome, IsSome, OnSome, IfNone};
ghost use Rattle.mg_dev.specs.Files.{Files};
ghost use Rattle.mg_bits.specs.Feed.{HasBits, HoldsBits, KeepsPage, ToldBits};
ghost use Rattle.mg_defs.specs.Bits.{Begins, digits};
ghost use Rattle.mg_bits.specs.Keeping.{Keeps};
ghost use Rattle.mg_bits.specs.Reader.{AnswersBit, AnswersPiece, at_place};
ghost use Rattle.mg_bits.specs.NextBits.{ReadsBits, ReadsNext};

use crate::kept_bits::KeptBits;
use crate::{BitErr, Feed};
use std::marker::Model;

/// Reads bits, the highest of each byte first.
///
/// It keeps bits of the page that its feed holds, so that `bit` asks the feed once for 64 bits, and
/// once for eight where the page ends within the next 64. They are bits of that page whatever
/// device the feed reads, and a call that may turn the page forgets them.
#[derive(Drop)]
pub struct BitReader<F: Feed> {
    feed: F,
    place: u64,
    kept: KeptBits,
}

impl<F: Feed> Model for BitReader<F> {
    ghost use Rattle.mg_bits.specs.Keeping.{Keeps};
    ghost use Rattle.mg_bits.specs.Reading.{Reading, reading_code};

    ghost Value = { Reading F };

    ghost coded = { reading_code F.code };

    ghost view = { λ r. record { feed = r.feed; place = r.place } };

    ghost invariant = { λ r. Keeps (F.feeding r.feed) (F.fits r.feed) r.kept };
}

impl<F: Feed> BitReader<F> {
    pub fn new(feed: F, place: u64) -> Self
        ensures feed { result.feed ≡ feed }
        ensures place { result.place ≡ place }
    {
        BitReader {
            feed,
            place,
            kept: KeptBits::none(),
        }
    }

    pub fn place(&self) -> u64
        ensures { result ≡ self.now.place }
    {
        self.place
    }

    /// The feed that it reads from.
    pub fn feed(&self) -> &F
        ensures { result.now ≡ self.now.feed }
    {
        &self.feed
    }

    pub fn seek(&mut self, place: u64)
        ensures feed { self.new.feed ≡ self.old.feed }
        ensures place { self.new.place ≡ place }
    {
        self.place = place;
    }

    /// The next 57 bits as a number, where the page that is held has the eight bytes from the next
    /// bit's on, and None elsewhere: eight bytes hold as many behind any place in the first of them.
    /// The device is not asked.
    #[inline]
    pub fn peek(&self) -> Option<u64>
        ensures below { IfSome result (λ next. next < 2 ^ 57) }
        ensures told { ToldBits (F.feeding self.now.feed) (F.fits self.now.feed) self.now.place
            result (λ next. Begins (digits 57 next)) }
        ensures held { IfSome result
            (λ next. HoldsBits (F.feeding self.now.feed) self.now.place 57) }
        ensures some { (files : Option Files) → F.fits self.now.feed files →
            HasBits (F.feeding self.now.feed) files (8 * (self.now.place / 8)) 64 → IsSome result }
    {
        self.peek_at(self.place)
    }

    /// The same of the 57 bits from any place on. Whoever keeps a place of his own looks with it, and
    /// seeks once he is done.
    #[inline]
    pub fn peek_at(&self, place: u64) -> Option<u64>
        ensures below { IfSome result (λ next. next < 2 ^ 57) }
        ensures told { ToldBits (F.feeding self.now.feed) (F.fits self.now.feed) place
            result (λ next. Begins (digits 57 next)) }
        ensures held { IfSome result (λ next. HoldsBits (F.feeding self.now.feed) place 57) }
        ensures some { (files : Option Files) → F.fits self.now.feed files →
            HasBits (F.feeding self.now.feed) files (8 * (place / 8)) 64 → IsSome result }
    {
        match self.feed.word(place / 8) {
            Some(word) => Some(middle(word, (place % 8) as u32)),
            None => None,
        }
    }

    /// The next bits of one byte, as a number.
    #[inline]
    fn piece(&mut self, dev: &mut F::Dev, count: u32) -> Result<u64, BitErr>
        requires fits { F.fits self.old.feed (F.device dev.old).files }
        requires place { self.old.place + count < 2 ^ 64 }
        requires some { 0 < count }
        requires room { self.old.place % 8 + count ≤ 8 }
        ensures next { ReadsNext F.feeding F.device F.fits self.old self.new dev.old dev.new count
            result (AnswersPiece result self.old.place count) }
        ensures below { IfOk result (λ value. value < 2 ^ count) }
        ensures keeps { KeepsPage (F.feeding self.old.feed) (F.feeding self.new.feed)
            self.old.place }
    {
        let place = self.place;
        self.kept = KeptBits::none();
        match self.feed.byte(dev, place / 8) {
            Err(_) => Err(BitErr::Device),
            Ok(None) => Err(BitErr::End { at: place }),
            Ok(Some(byte)) => {
                self.place = place + u64::from(count);
                let rest = 8 - (place % 8) as u32 - count;
                Ok(field(byte, rest, count))
            }
        }
    }

    /// The next bits, as a number.
    pub fn bits(&mut self, dev: &mut F::Dev, count: u32) -> Result<u64, BitErr>
        requires fits { F.fits self.old.feed (F.device dev.old).files }
        requires place { self.old.place + count < 2 ^ 64 }
        requires count { count ≤ 64 }
        ensures { ReadsBits F.feeding F.device F.fits self.old self.new dev.old dev.new count
            result }
    {
        if count == 0 || count > 57 {
            return self.bits_by_bytes(dev, count);
        }
        match self.peek() {
            Some(next) => {
                self.seek(self.place() + u64::from(count));
                Ok(first_of(next, count))
            }
            None => self.bits_by_bytes(dev, count),
        }
    }

    /// The next bits, as a number, from one byte after the other.
    fn bits_by_bytes(&mut self, dev: &mut F::Dev, count: u32) -> Result<u64, BitErr>
        requires fits { F.fits self.old.feed (F.device dev.old).files }
        requires place { self.old.place + count < 2 ^ 64 }
        requires count { count ≤ 64 }
        ensures { ReadsBits F.feeding F.device F.fits self.old self.new dev.old dev.new count
            result }
    {
        let start = self.place();
        let mut value = 0u64;
        let mut done = 0u32;
        while done < count {
            let room = 8 - (self.place() % 8) as u32;
            let size = room.min(count - done);
            match self.piece(dev, size) {
                Err(refusal) => {
                    self.seek(start);
                    return Err(at_start(refusal, start));
                }
                Ok(more) => {
                    value = join(value, done, more, size);
                    done += size;
                }
            }
        }
        Ok(value)
    }

    /// The next bit.
    #[inline]
    pub fn bit(&mut self, dev: &mut F::Dev) -> Result<bool, BitErr>
        requires fits { F.fits self.old.feed (F.device dev.old).files }
        requires place { self.old.place + 1 < 2 ^ 64 }
        ensures { ReadsNext F.feeding F.device F.fits self.old self.new dev.old dev.new 1 result
            (AnswersBit result self.old.place) }
    {
        match self.kept_bit() {
            Some(bit) => Ok(bit),
            None => self.bit_of_feed(dev),
        }
    }

    /// The next bit, where it is not kept yet.
    #[inline]
    fn bit_of_feed(&mut self, dev: &mut F::Dev) -> Result<bool, BitErr>
        requires fits { F.fits self.old.feed (F.device dev.old).files }
        requires place { self.old.place + 1 < 2 ^ 64 }
        ensures { ReadsNext F.feeding F.device F.fits self.old self.new dev.old dev.new 1 result
            (AnswersBit result self.old.place) }
    {
        self.keep();
        match self.kept_bit() {
            Some(bit) => Ok(bit),
            None => match self.piece(dev, 1) {
                Ok(value) => Ok(value == 1),
                Err(refusal) => Err(refusal),
            },
        }
    }

    /// Keeps the bits of the next bit's byte, and of those behind it, that the page that is held has.
    fn keep(&mut self)
        ensures { self.new ≡ self.old }
    {
        self.kept = bits_at(&self.feed, self.place / 8);
    }

    /// The next bit, where it is kept.
    #[inline]
    fn kept_bit(&mut self) -> Option<bool>
        requires place { self.old.place + 1 < 2 ^ 64 }
        ensures feed { self.new.feed ≡ self.old.feed }
        ensures told { ToldBits (F.feeding self.old.feed) (F.fits self.old.feed) self.old.place
            result (λ bit. Begins (bit ∷ [])) }
        ensures held { OnSome result (HoldsBits (F.feeding self.old.feed) self.old.place 1) }
        ensures some { OnSome result (self.new.place ≡ self.old.place + 1) }
        ensures none { IfNone result (self.new ≡ self.old) }
    {
        let place = self.place;
        let kept = self.kept;
        if place < kept.start || place - kept.start >= u64::from(kept.count) {
            return None;
        }
        let behind = kept.count - 1 - (place - kept.start) as u32;
        self.place = place + 1;
        Some((kept.word >> behind) % 2 == 1)
    }
}

/// The bits of eight bytes from a place on, or else those of one, where the page that is held has them.
fn bits_at<F: Feed>(feed: &F, at: u64) -> KeptBits
    requires { 8 * at < 2 ^ 64 }
    ensures { Keeps (F.feeding feed.now) (F.fits feed.now) result }
{
    let start = 8 * at;
    if let Some(word) = feed.word(at) {
        return KeptBits {
            start,
            count: 64,
            word,
        };
    }
    match feed.held_byte(at) {
        Some(byte) => KeptBits {
            start,
            count: 8,
            word: u64::from(byte),
        },
        None => KeptBits::none(),
    }
}

/// The 57 bits of a word behind its first ones.
#[inline]
fn middle(word: u64, skip: u32) -> u64
    requires { skip < 8 }
    ensures value { result ≡ word / 2 ^ (7 - skip) % 2 ^ 57 }
    ensures below { result < 2 ^ 57 }
{
    (word >> (7 - skip)) % (1u64 << 57)
}

/// The first of 57 bits.
#[inline]
fn first_of(next: u64, count: u32) -> u64
    requires next { next < 2 ^ 57 }
    requires count { count ≤ 57 }
    ensures value { result ≡ next / 2 ^ (57 - count) }
    ensures below { result < 2 ^ count }
{
    next >> (57 - count)
}

/// The refusal, at the place where the call began.
fn at_start(refusal: BitErr, start: u64) -> BitErr
    ensures { result ≡ at_place refusal start }
{
    match refusal {
        BitErr::Device => BitErr::Device,
        BitErr::End { .. } => BitErr::End { at: start },
    }
}

/// The bits of a byte above its lowest `rest`.
#[inline]
fn field(byte: u8, rest: u32, count: u32) -> u64
    requires rest { rest ≤ 8 }
    requires count { count ≤ 8 }
    ensures { result ≡ byte / 2 ^ rest % 2 ^ count }
{
    (u64::from(byte) >> rest) % (1u64 << count)
}

/// The number of the bits of two numbers, of so many each.
#[inline]
fn join(value: u64, done: u32, more: u64, size: u32) -> u64
    requires high { value < 2 ^ done }
    requires low { more < 2 ^ size }
    requires size { size ≤ 8 }
    requires fits { done + size ≤ 64 }
    ensures { result ≡ value * 2 ^ size + more }
{
    value * (1u64 << size) + more
}
