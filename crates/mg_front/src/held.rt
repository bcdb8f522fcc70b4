//! Entries that lie whole on the page that is held.
//!
//! Nearly all do, and they are taken from the page with no device asked. What else stands there, as
//! an entry that lies on two pages or none at all, is left to who asks.
ghost use Rattle.std.specs.Prelude.{◌≡◌, ◌≤◌, ◌<◌, ◌+◌, ◌++◌, ◌&&◌, ◌||◌, ◌==◌, nat_le, length, take, drop};
ghost use Rattle.mg_defs.specs.Front.{is_below, read_cut, read_entry, read_whole, rises_after_prefix};
ghost use Rattle.mg_front.specs.Entries.{HasRoom, TookBehind, TookHeld, string_of};

use crate::FrontEntry;
use crate::entry::{Head, is_below, rises};

// So many bytes are copied with no call.
const FEW: usize = 16;

/// Puts sixteen bytes into a string, behind its first ones.
#[inline(always)]
fn put_sixteen(string: &mut [u8; 255], from: usize, bytes: &[u8])
    requires there { 16 ≤ length bytes.now }
    requires room { from + 16 ≤ 255 }
    ensures { take (from + 16) string.new ≡ take from string.old ++ take 16 bytes.now }
{
    // The bytes are taken first and written then, so that no test is made of whether they overlap.
    let mut sixteen = [0; FEW];
    sixteen.copy_from_slice(&bytes[..FEW]);
    string[from..from + FEW].copy_from_slice(&sixteen);
}

/// Puts the first bytes of some into a string, behind its first ones. What stands behind them then is
/// not told: where there is room for sixteen, so many are copied.
#[inline(always)]
fn put_bytes(string: &mut [u8; 255], from: usize, bytes: &[u8], count: usize)
    requires there { count ≤ length bytes.now }
    requires room { from + count ≤ 255 }
    ensures { take (from + count) string.new ≡ take from string.old ++ take count bytes.now }
{
    if count <= FEW && from <= 255 - FEW && bytes.len() >= FEW {
        put_sixteen(string, from, bytes);
    } else {
        string[from..from + count].copy_from_slice(&bytes[..count]);
    }
}

/// Puts the first bytes of some into a field. What stands behind them then is not told.
#[inline(always)]
fn put_field(field: &mut [u8; 24], bytes: &[u8], width: usize)
    requires there { width ≤ length bytes.now }
    requires width { width ≤ 24 }
    ensures { take width field.new ≡ take width bytes.now }
{
    if bytes.len() >= 24 {
        field.copy_from_slice(&bytes[..24]);
    } else {
        field[..width].copy_from_slice(&bytes[..width]);
    }
}

/// Takes what stands behind a head: the bytes of the string behind those that it shares with the last
/// one, and the field. The last string becomes the entry's.
#[inline(always)]
fn take_behind(behind: &[u8], head: Head, width: usize, last: &mut FrontEntry, out: &mut FrontEntry)
    requires there { head.more + width ≤ length behind.now }
    requires width { width ≤ 24 }
    requires room { HasRoom head (string_of last.old) }
    ensures { TookBehind head width behind.now last.old last.new out.new }
{
    let from = usize::from(head.shared);
    let count = usize::from(head.more);
    put_bytes(&mut out.string, 0, &last.string, from);
    put_bytes(&mut out.string, from, behind, count);
    put_bytes(&mut last.string, from, behind, count);
    out.length = head.shared + head.more;
    last.length = head.shared + head.more;
    put_field(&mut out.field, &behind[count..], width);
}

/// Whether an entry that is not whole stands there, by its head and what stands behind it.
#[inline(always)]
fn stands_cut(last: &FrontEntry, head: Head, width: usize, behind: &[u8]) -> bool
    requires width { width ≤ 24 }
    ensures { result ≡ (nat_le head.shared (length (string_of last.now))
        && (nat_le (head.shared + head.more) 255 && (nat_le (head.more + width) (length behind.now)
        && rises_after_prefix (drop head.shared (string_of last.now))
        (take head.more behind.now)))) }
{
    let from = usize::from(head.shared);
    let count = usize::from(head.more);
    from <= last.bytes().len()
        && from + count <= 255
        && count + width <= behind.len()
        && rises(&last.bytes()[from..], &behind[..count])
}

/// Whether a whole entry of this number stands there, by the length of its string and what stands
/// behind it.
#[inline(always)]
fn stands_whole(number: u32, last: &FrontEntry, more: u8, width: usize, behind: &[u8]) -> bool
    requires width { width ≤ 24 }
    ensures { result ≡ (nat_le more 255 && (nat_le (more + width) (length behind.now)
        && (number == 0 || is_below (string_of last.now) (take more behind.now)))) }
{
    let count = usize::from(more);
    count + width <= behind.len() && (number == 0 || is_below(last.bytes(), &behind[..count]))
}

/// Takes the entry that is not whole and stands first, and answers how many bytes it has. The last
/// string becomes the entry's. Where none stands there, it answers 0 and the last one stays.
#[inline(always)]
fn take_cut(bytes: &[u8], width: usize, last: &mut FrontEntry, out: &mut FrontEntry) -> u64
    requires width { width ≤ 24 }
    ensures { TookHeld width (read_cut width (string_of last.old) bytes.now) (length bytes.now)
        last.old last.new out.new result }
{
    let [shared, more, behind @ ..] = bytes else {
        return 0;
    };
    let head = Head {
        shared: *shared,
        more: *more,
    };
    if !stands_cut(last, head, width, behind) {
        return 0;
    }
    take_behind(behind, head, width, last, out);
    (usize::from(head.more) + width + 2) as u64
}

/// The same, of a whole entry of this number.
#[inline(always)]
fn take_whole(
    number: u32,
    bytes: &[u8],
    width: usize,
    last: &mut FrontEntry,
    out: &mut FrontEntry,
) -> u64
    requires width { width ≤ 24 }
    ensures { TookHeld width (read_whole width number (string_of last.old) bytes.now)
        (length bytes.now) last.old last.new out.new result }
{
    let [more, behind @ ..] = bytes else {
        return 0;
    };
    if !stands_whole(number, last, *more, width, behind) {
        return 0;
    }
    let head = Head {
        shared: 0,
        more: *more,
    };
    take_behind(behind, head, width, last, out);
    (usize::from(head.more) + width + 1) as u64
}

/// Takes the entry of a number that stands first, and answers how many bytes it has. The last string
/// becomes the entry's. Where none stands there, it answers 0 and the last one stays.
#[inline(always)]
pub(crate) fn take_entry(
    number: u32,
    bytes: &[u8],
    width: usize,
    last: &mut FrontEntry,
    out: &mut FrontEntry,
) -> u64
    requires width { width ≤ 24 }
    ensures { TookHeld width (read_entry width number (string_of last.old) bytes.now)
        (length bytes.now) last.old last.new out.new result }
{
    if number % 4 == 0 {
        return take_whole(number, bytes, width, last, out);
    }
    take_cut(bytes, width, last, out)
}
