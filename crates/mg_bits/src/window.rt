//! One page of a file, kept in a buffer.
ghost use Rattle.std.specs.Prelude.{◌≡◌, ◌+◌, ◌-◌, ◌*◌, ◌≤◌, ◌<◌, ◌^◌, Some, None, IfSome, slice_get, length, IsSome};
ghost use Rattle.std.specs.Bool.{OnTrue, OnFalse};
ghost use Rattle.mg_defs.specs.Bits.{bits_of, digits};
ghost use Rattle.mg_bits.specs.ByteReads.{ReadsByte, TurnsTo};
ghost use Rattle.mg_bits.specs.Feed.{lacks};
ghost use Rattle.mg_bits.specs.Pages.{IsWordIn};
ghost use Rattle.mg_bits.specs.Windows.{AsWindow, IsWindow};

use mg_dev::{Failed, FileRef, Store};

/// Which page a buffer keeps, and how often a page was read.
#[derive(Clone, Copy, Drop)]
pub struct Window {
    /// The number of the page, if one is kept.
    pub held: Option<u64>,
    /// The place of that page's first byte.
    pub first: u64,
    /// The bytes of that page: fewer than the buffer takes only where the file ends, and none where
    /// no page is kept.
    pub count: usize,
    /// How often a page was read, up to the number's end.
    pub reads: u64,
}

impl Window {
    /// No page is kept.
    pub fn empty() -> Self
        ensures held { result.held ≡ None }
        ensures count { result.count ≡ 0 }
        ensures reads { result.reads ≡ 0 }
    {
        Window {
            held: None,
            first: 0,
            count: 0,
            reads: 0,
        }
    }

    /// Whether the byte at a place is kept. No page's number is needed for it, so that a byte of the
    /// page costs one comparison.
    #[inline]
    pub fn has(&self, at: u64) -> bool
        ensures low { OnTrue result (self.now.first ≤ at) }
        ensures high { OnTrue result (at - self.now.first < self.now.count) }
        ensures no { OnFalse result (self.now.first ≤ at → self.now.count ≤ at - self.now.first) }
    {
        at >= self.first && at - self.first < self.count as u64
    }
}

/// Whether the page of this number is held.
#[inline]
pub fn is_held(held: Option<u64>, number: u64) -> bool
    ensures yes { OnTrue result (held ≡ Some number) }
    ensures no { OnFalse result (lacks held number ≡ 1) }
{
    match held {
        Some(there) => there == number,
        None => false,
    }
}

/// Holds the page of this number.
fn load<S: Store>(
    store: &mut S,
    file: &FileRef<'_>,
    page: &mut [u8],
    window: &mut Window,
    number: u64,
) -> Result<(), Failed>
    requires fits { length page.old * number < 2 ^ 64 }
    requires window { IsWindow file.now window.old page.old (S.files store.old) }
    ensures window { IsWindow file.now window.new page.new (S.files store.new) }
    ensures turn { AsWindow S.files S.reads S.faults file.now page.old window.old window.new
        store.old store.new (TurnsTo file.now.part number result) }
{
    if is_held(window.held, number) {
        return Ok(());
    }
    let first = page.len() as u64 * number;
    window.held = None;
    window.reads = window.reads.saturating_add(1);
    match store.read_at(file, first, page) {
        Ok(count) => {
            window.first = first;
            window.count = count;
            window.held = Some(number);
            Ok(())
        }
        Err(failed) => {
            window.count = 0;
            Err(failed)
        }
    }
}

/// The byte at an index.
#[inline]
pub fn byte_in(bytes: &[u8], index: usize) -> Option<u8>
    ensures { result ≡ slice_get bytes.now index }
{
    bytes.get(index).copied()
}

/// The eight bytes from an index on as a number, if there are so many.
#[inline]
pub fn word_in(bytes: &[u8], index: usize) -> Option<u64>
    ensures told { IfSome result (λ word. IsWordIn bytes.now index word) }
    ensures some { index + 8 ≤ length bytes.now → IsSome result }
{
    if bytes.len() < 8 || index > bytes.len() - 8 {
        return None;
    }
    match bytes[index..index + 8].first_chunk() {
        Some(eight) => Some(word_of(eight)),
        None => None,
    }
}

/// Eight bytes as a number, the first of them highest.
#[inline]
fn word_of(eight: &[u8; 8]) -> u64
    ensures { digits 64 result ≡ bits_of eight.now }
{
    u64::from_be_bytes(*eight)
}

/// The byte at `offset` of the page `number` of a file. The caller divides a place by the length of
/// its pages, since it knows that length when it is compiled.
pub fn window_byte<S: Store>(
    store: &mut S,
    file: &FileRef<'_>,
    page: &mut [u8],
    window: &mut Window,
    number: u64,
    offset: usize,
) -> Result<Option<u8>, Failed>
    requires offset { offset < length page.old }
    requires place { number * length page.old + offset < 2 ^ 64 }
    requires window { IsWindow file.now window.old page.old (S.files store.old) }
    ensures window { IsWindow file.now window.new page.new (S.files store.new) }
    ensures byte { AsWindow S.files S.reads S.faults file.now page.old window.old window.new
        store.old store.new
        (ReadsByte file.now.part (number * length page.old + offset) result) }
{
    match load(store, file, page, window, number) {
        Ok(()) => Ok(byte_in(&page[..window.count], offset)),
        Err(failed) => Err(failed),
    }
}
