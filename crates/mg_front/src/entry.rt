//! One entry, and how it is read.
ghost use Rattle.std.specs.Prelude.{◌≡◌, ◌≤◌, ◌<◌, ◌+◌, ◌^◌, ◌==◌, ◌||◌, [], IfOk, IfSome, OnSome, length, take, drop, slice_get};
ghost use Rattle.mg_dev.specs.Moments.{Between};
ghost use Rattle.mg_bits.specs.Pages.{Fits};
ghost use Rattle.mg_defs.specs.Front.{is_below, rises_after_prefix, read_entry, read_whole, read_cut};
ghost use Rattle.mg_front.specs.Entries.{string_of, HeadAfter, HeadAt, HasRoom, IsAsLong, IsBehind, IsPut, IsReadable, ReadsEntry};
ghost use Rattle.mg_front.specs.Looks.{OnWhole, ReadsPiece};

use mg_bits::PageFeed;
use mg_dev::{Failed, Store};

/// A string and its field.
#[derive(Clone, Copy, Debug)]
pub struct FrontEntry {
    pub string: [u8; 255],
    pub length: u8,
    pub field: [u8; 24],
}

impl FrontEntry {
    pub fn new() -> Self
        ensures { string_of result ≡ [] }
    {
        FrontEntry {
            string: [0; 255],
            length: 0,
            field: [0; 24],
        }
    }
}

/// Whether a string comes before another.
pub fn is_below(before: &[u8], string: &[u8]) -> bool
    ensures { result ≡ is_below before.now string.now }
{
    before.cmp(string).is_lt()
}

/// Whether a suffix rises above what followed the shared prefix before.
#[inline]
pub(crate) fn rises(before: &[u8], suffix: &[u8]) -> bool
    ensures { result ≡ rises_after_prefix before.now suffix.now }
{
    match (before, suffix) {
        (_, []) => false,
        ([], _) => true,
        ([x, ..], [y, ..]) => x < y,
    }
}

/// The byte at a place, or None at and past the end.
#[inline]
fn read_byte<S: Store>(
    feed: &mut PageFeed<'_, S>,
    store: &mut S,
    at: u64,
) -> Result<Option<u8>, Failed>
    requires fits { Fits feed.old (S.files store.old) }
    ensures { Between S.files S.reads S.faults store.old store.new
        (ReadsPiece feed.old feed.new at (at + 1) result
        (λ bytes byte. byte ≡ slice_get bytes at) OnSome) }
{
    feed.byte(store, at)
}

/// Reads so many bytes into a buffer, from an index on; false where the bytes end before.
fn read_bytes<S: Store>(
    feed: &mut PageFeed<'_, S>,
    store: &mut S,
    at: u64,
    out: &mut [u8],
    from: usize,
    count: usize,
) -> Result<bool, Failed>
    requires fits { Fits feed.old (S.files store.old) }
    requires place { at < 2 ^ 63 }
    requires room { from + count ≤ length out.old }
    requires small { length out.old < 2 ^ 16 }
    ensures { Between S.files S.reads S.faults store.old store.new
        (ReadsPiece feed.old feed.new at (at + count) result
        (λ bytes whole. IsPut whole out.old out.new from count at bytes) OnWhole) }
{
    feed.fill(store, at, &mut out[from..from + count])
}

impl FrontEntry {
    /// The string's bytes.
    pub fn bytes(&self) -> &[u8]
        ensures { result.now ≡ string_of self.now }
    {
        &self.string[..usize::from(self.length)]
    }
}

/// Whether a string may have this number after the string before.
pub(crate) fn may_follow(number: u32, before: &FrontEntry, entry: &FrontEntry) -> bool
    ensures { result ≡ (number == 0 || is_below (string_of before.now) (string_of entry.now)) }
{
    number == 0 || is_below(before.bytes(), entry.bytes())
}

/// What an entry begins with: how many bytes its string shares with the one before, and how many
/// follow. A whole entry shares none.
#[derive(Clone, Copy)]
pub(crate) struct Head {
    pub shared: u8,
    pub more: u8,
}

/// A head of these two bytes; None where the string before is shorter than what is shared, or the
/// entry's string would be longer than 255 bytes.
fn head_after(before: &FrontEntry, shared: u8, more: u8) -> Option<Head>
    ensures { HeadAfter result (string_of before.now) shared more }
{
    if usize::from(shared) > before.bytes().len() {
        return None;
    }
    if shared > 255 - more {
        return None;
    }
    Some(Head { shared, more })
}

/// Reads the head of an entry that is not whole; None where no such entry stands there.
fn read_head<S: Store>(
    feed: &mut PageFeed<'_, S>,
    store: &mut S,
    at: u64,
    before: &FrontEntry,
) -> Result<Option<Head>, Failed>
    requires fits { Fits feed.old (S.files store.old) }
    requires place { at < 2 ^ 62 }
    ensures head { Between S.files S.reads S.faults store.old store.new
        (ReadsPiece feed.old feed.new at (at + 2) result
        (λ bytes head. HeadAt head (string_of before.now) at bytes) OnSome) }
    ensures room { IfOk result (λ head. IfSome head (λ h. HasRoom h (string_of before.now))) }
{
    let shared = match read_byte(feed, store, at) {
        Ok(Some(shared)) => shared,
        Ok(None) => return Ok(None),
        Err(failed) => return Err(failed),
    };
    match read_byte(feed, store, at + 1) {
        Ok(Some(more)) => Ok(head_after(before, shared, more)),
        Ok(None) => Ok(None),
        Err(failed) => Err(failed),
    }
}

/// Reads what stands behind a head: the bytes of the string that follow, and the field. False where
/// the bytes end before.
fn read_behind<S: Store>(
    feed: &mut PageFeed<'_, S>,
    store: &mut S,
    at: u64,
    head: Head,
    width: usize,
    out: &mut FrontEntry,
) -> Result<bool, Failed>
    requires fits { Fits feed.old (S.files store.old) }
    requires width { width ≤ 24 }
    requires place { at < 2 ^ 62 + 2 }
    requires room { head.shared + head.more ≤ 255 }
    ensures behind { Between S.files S.reads S.faults store.old store.new
        (ReadsPiece feed.old feed.new at (at + head.more + width) result
        (λ bytes whole. IsBehind whole head width out.old.string out.new.string out.new.field at
        bytes) OnWhole) }
    ensures length { IfOk result (λ whole. OnWhole whole (IsAsLong head out.new)) }
{
    let from = usize::from(head.shared);
    let count = usize::from(head.more);
    match read_bytes(feed, store, at, &mut out.string, from, count) {
        Ok(true) => {}
        Ok(false) => return Ok(false),
        Err(failed) => return Err(failed),
    }
    out.length = head.shared + head.more;
    read_bytes(feed, store, at + count as u64, &mut out.field, 0, width)
}

/// Where an entry is to stand, how wide its field is, and its number.
#[derive(Clone, Copy)]
pub(crate) struct EntryAt {
    pub place: u64,
    pub width: usize,
    pub number: u32,
}

/// Reads a whole entry; None where none stands there.
fn read_whole<S: Store>(
    feed: &mut PageFeed<'_, S>,
    store: &mut S,
    at: EntryAt,
    before: &FrontEntry,
    out: &mut FrontEntry,
) -> Result<Option<u64>, Failed>
    requires { IsReadable feed.old at (S.files store.old) }
    ensures { Between S.files S.reads S.faults store.old store.new
        (ReadsEntry feed.old feed.new at (read_whole at.width at.number (string_of before.now))
        out.new result) }
{
    let byte = match read_byte(feed, store, at.place) {
        Ok(byte) => byte,
        Err(failed) => return Err(failed),
    };
    let Some(more) = byte else {
        return Ok(None);
    };
    let head = Head { shared: 0, more };
    match read_behind(feed, store, at.place + 1, head, at.width, out) {
        Ok(true) => {}
        Ok(false) => return Ok(None),
        Err(failed) => return Err(failed),
    }
    if !may_follow(at.number, before, out) {
        return Ok(None);
    }
    Ok(Some((usize::from(more) + at.width + 1) as u64))
}

/// Puts the bytes that an entry's string shares with the one before. What stood behind them stays.
fn put_shared(before: &FrontEntry, shared: u8, out: &mut FrontEntry)
    ensures { take shared out.new.string ≡ take shared before.now.string }
{
    let count = usize::from(shared);
    out.string[..count].copy_from_slice(&before.string[..count]);
}

/// Whether the entry's string rises above the one before, from a shared prefix on.
fn suffix_rises(before: &FrontEntry, entry: &FrontEntry, from: u8) -> bool
    requires before { from ≤ length (string_of before.now) }
    requires entry { from ≤ length (string_of entry.now) }
    ensures { result ≡ rises_after_prefix (drop from (string_of before.now))
        (drop from (string_of entry.now)) }
{
    rises(
        &before.bytes()[usize::from(from)..],
        &entry.bytes()[usize::from(from)..],
    )
}

/// Reads an entry that is not whole; None where none stands there.
fn read_cut<S: Store>(
    feed: &mut PageFeed<'_, S>,
    store: &mut S,
    at: EntryAt,
    before: &FrontEntry,
    out: &mut FrontEntry,
) -> Result<Option<u64>, Failed>
    requires { IsReadable feed.old at (S.files store.old) }
    ensures { Between S.files S.reads S.faults store.old store.new
        (ReadsEntry feed.old feed.new at (read_cut at.width (string_of before.now)) out.new
        result) }
{
    let head = match read_head(feed, store, at.place, before) {
        Ok(Some(head)) => head,
        Ok(None) => return Ok(None),
        Err(failed) => return Err(failed),
    };
    put_shared(before, head.shared, out);
    match read_behind(feed, store, at.place + 2, head, at.width, out) {
        Ok(true) => {}
        Ok(false) => return Ok(None),
        Err(failed) => return Err(failed),
    }
    if !suffix_rises(before, out, head.shared) {
        return Ok(None);
    }
    Ok(Some((usize::from(head.more) + at.width + 2) as u64))
}

/// Reads the entry of a number, after the one before; None where none stands there.
pub(crate) fn read_entry<S: Store>(
    feed: &mut PageFeed<'_, S>,
    store: &mut S,
    at: EntryAt,
    before: &FrontEntry,
    out: &mut FrontEntry,
) -> Result<Option<u64>, Failed>
    requires { IsReadable feed.old at (S.files store.old) }
    ensures { Between S.files S.reads S.faults store.old store.new
        (ReadsEntry feed.old feed.new at (read_entry at.width at.number (string_of before.now))
        out.new result) }
{
    if at.number % 4 == 0 {
        return read_whole(feed, store, at, before, out);
    }
    read_cut(feed, store, at, before, out)
}
