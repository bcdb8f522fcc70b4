//! Entries of a part by their number.
ghost use Rattle.std.specs.Prelude.{Err, ◌≡◌, ◌≢◌, ◌-◌, if◌then◌else◌, ◌≤◌, ◌<◌, ◌+◌, ◌*◌, ◌%◌, ◌/◌, ◌^◌, List, IfErr, IfOk, IfSome, IsSome, None, Some, true, false};
ghost use Rattle.mg_bits.specs.Pages.{Fits};
ghost use Rattle.mg_defs.specs.Numbers.{four};
ghost use Rattle.mg_defs.specs.Front.{Entry};
ghost use Rattle.mg_front.specs.Entries.{entry_of, string_of};
ghost use Rattle.mg_front.specs.Reading.{Fronted, FrontFits, FrontStands, AnswersAt, AnswersBlock, AnswersFind, AnswersIn, IsNotBad, IsInBlock, IsLost, IsLostAmong, IsReader, LooksUp, ReaderLooked, ReadsPlace, GivesEntry, ScansBlock, AnswersPlacesOf, AtBlock, ExpectsPlaces, WherePlacesStand};
ghost use Rattle.mg_dev.specs.Files.{SameReads, bytes_at};
ghost use Rattle.mg_front.specs.Looks.{ReadsUpTo, halvings, looks};
ghost use Rattle.mg_front.specs.Stood.{BlockStands, EntryStands, FindStands, InStands, IsReadAt, ScanStands};
ghost use Rattle.std.specs.Bool.{OnTrue, OnFalse};
ghost use Rattle.std.specs.Int.{div_ceil};
ghost use Rattle.mg_dev.specs.PartCauses.{HasPartCause};
ghost use Rattle.mg_dev.specs.Moments.{Between};
ghost use Rattle.mg_dev.specs.Names.{file_name};

use crate::FrontEntry;
use crate::entry::{EntryAt, is_below, read_entry};
use mg_bits::PageFeed;
use mg_dev::{Bad, Failed, FileRef, PartErr, Store};
use mg_fields::four_at;
use std::alloc::Global;
use std::marker::Model;

/// The number whose four bytes these are.
fn number_of(bytes: &[u8; 4]) -> u32
    ensures { four result ≡ bytes.now }
{
    four_at(bytes, 0)
}

/// The place of the whole entry of a block. The places are bad where they end before it.
fn place_of<S: Store>(
    places: &mut PageFeed<'_, S>,
    store: &mut S,
    block: u32,
) -> Result<u64, PartErr>
    requires { Fits places.old (S.files store.old) }
    ensures { Between S.files S.reads S.faults store.old store.new
        (ReadsPlace places.old places.new block result) }
{
    let mut four = [0u8; 4];
    match places.fill(store, 4 * u64::from(block), &mut four) {
        Ok(true) => {}
        Ok(false) => {
            return Err(PartErr::Bad(Bad {
                part: places.part(),
                at: 4 * u64::from(block),
                low: 1,
                high: 1,
                found: 0,
            }));
        }
        Err(_) => return Err(PartErr::Device),
    }
    Ok(u64::from(number_of(&four)))
}

/// Reads the entry behind others of its block, from the block's place on. False where none stands
/// there.
fn read_block<S: Store>(
    strings: &mut PageFeed<'_, S>,
    store: &mut S,
    from: u64,
    width: usize,
    last: u32,
    out: &mut FrontEntry,
) -> Result<bool, Failed>
    requires fits { Fits strings.old (S.files store.old) }
    requires width { width ≤ 24 }
    requires place { from < 2 ^ 32 }
    requires last { last < 4 }
    ensures read { Between S.files S.reads S.faults store.old store.new
        (ReadsUpTo strings.old strings.new from (from + 1124) result) }
    ensures told { AtBlock strings.old (S.files store.old) width from
        (GivesEntry result last width out.new) }
    ensures stood { IsSome (S.files store.old) → IfOk result (λ there. there ≡ true →
        IsReadAt width (bytes_at (S.files store.old) strings.old.name) from last
        (entry_of width out.new)) }
{
    let mut place = from;
    for number in 0..last + 1 {
        let before = *out;
        let at = EntryAt {
            place,
            width,
            number,
        };
        match read_entry(strings, store, at, &before, out) {
            Ok(Some(size)) => {
                place += size;
            }
            Ok(None) => return Ok(false),
            Err(failed) => return Err(failed),
        }
    }
    Ok(true)
}

/// What reading the entries of a block for a string found.
#[derive(Clone, Copy, Debug, PartialEq, Eq)]
pub(crate) enum Scan {
    /// The string, at this number in the block.
    Found(u32),
    /// No such string.
    Absent,
    /// No entry where one is to stand.
    Damaged,
}

/// Entries of one block, as many as are asked for from its first on.
#[derive(Clone, Copy)]
struct BlockAt {
    /// The place of the first of them.
    from: u64,
    /// The width of their fields.
    width: usize,
    /// How many they are, at most four.
    most: u32,
}

// Reads the entries of a block, from its place on, until one has the string.
fn scan_block<S: Store>(
    strings: &mut PageFeed<'_, S>,
    store: &mut S,
    block: BlockAt,
    string: &[u8],
    out: &mut FrontEntry,
) -> Result<Scan, Failed>
    requires fits { Fits strings.old (S.files store.old) }
    requires width { block.width ≤ 24 }
    requires place { block.from < 2 ^ 32 }
    requires most { block.most ≤ 4 }
    ensures read { Between S.files S.reads S.faults store.old store.new
        (ReadsUpTo strings.old strings.new block.from (block.from + 1124) result) }
    ensures told { AtBlock strings.old (S.files store.old) block.width block.from
        (ScansBlock result block.most string.now block.width out.new) }
    ensures number { IfOk result (λ scan. IsInBlock scan block.most) }
    ensures stood { IsSome (S.files store.old) → IfOk result
        (ScanStands block.width (bytes_at (S.files store.old) strings.old.name) block.from
        block.most string.now out.new) }
{
    let mut place = block.from;
    for number in 0..block.most {
        let before = *out;
        let at = EntryAt {
            place,
            width: block.width,
            number,
        };
        match read_entry(strings, store, at, &before, out) {
            Ok(Some(size)) => {
                place += size;
            }
            Ok(None) => return Ok(Scan::Damaged),
            Err(failed) => return Err(failed),
        }
        if is_same(out, string) {
            return Ok(Scan::Found(number));
        }
    }
    Ok(Scan::Absent)
}

// Compares the size of the places with that of a place for each whole entry.
fn expect_places<S: Store>(store: &mut S, places: &FileRef<'_>, count: u32) -> Result<(), PartErr>
    ensures { Between S.files S.reads S.faults store.old store.new
        (ExpectsPlaces places.now count result) }
{
    let wanted = 4 * u64::from(count.div_ceil(4));
    let found = match store.size(places) {
        Ok(size) => size.unwrap_or(0),
        Err(_) => return Err(PartErr::Device),
    };
    if found == wanted {
        return Ok(());
    }
    Err(PartErr::Bad(Bad {
        part: places.part,
        at: 0,
        low: wanted,
        high: wanted,
        found,
    }))
}

/// A reader of entries by their number, and of the numbers of strings.
///
/// It keeps a page of the strings and one of the places, and needs no memory once it is loaded. It
/// need not trust the parts: where they are no front coding, it answers that they are bad, or
/// something else, and stays as it was.
#[derive(Drop)]
pub struct FrontReader<'a, S> {
    strings: PageFeed<'a, S>,
    places: PageFeed<'a, S>,
    width: usize,
    count: u32,
}

impl<'a, S> Model for FrontReader<'a, S> {
    ghost use Rattle.std.specs.Prelude.{◌≤◌, ◌<◌, ◌^◌};
    ghost use Rattle.mg_front.specs.Reading.{Fronted};

    ghost Value = { Fronted };

    ghost view = { λ r. record { strings = r.strings; places = r.places; width = r.width; count = r.count } };

    ghost invariant = { λ r. (r.width ≤ 24) × (r.count < 2 ^ 32) };
}

impl<'a, S: Store> FrontReader<'a, S> {
    /// A reader of `count` entries with fields of this width. The size of the places is compared
    /// before anything is reserved.
    pub fn load(
        alloc: Global,
        store: &mut S,
        strings: FileRef<'a>,
        places: FileRef<'a>,
        width: usize,
        count: u32,
    ) -> Result<Self, PartErr>
        requires width { width ≤ 24 }
        ensures fits { IfOk result (λ reader. FrontFits reader (S.files store.new)) }
        ensures reader { IfOk result (λ reader. IsReader reader
            (file_name strings.entry) strings.entry.part (file_name places.entry) places.entry.part
            width count) }
        ensures answer { AnswersPlacesOf places.entry count (S.files store.old) result }
        ensures stands { WherePlacesStand places.entry (S.files store.old) count
            (IfErr result (λ refusal. IsNotBad refusal)) }
        ensures files { S.files store.new ≡ S.files store.old }
        ensures reads { SameReads (S.reads store.old) (S.reads store.new) }
        ensures cause { HasPartCause (S.faults store.old) (S.faults store.new) result }
    {
        match expect_places(store, &places, count) {
            Ok(()) => {}
            Err(refusal) => return Err(refusal),
        }
        let string_feed = match PageFeed::new(alloc, strings) {
            Ok(feed) => feed,
            Err(_) => return Err(PartErr::Memory),
        };
        let place_feed = match PageFeed::new(alloc, places) {
            Ok(feed) => feed,
            Err(_) => return Err(PartErr::Memory),
        };
        Ok(FrontReader {
            strings: string_feed,
            places: place_feed,
            width,
            count,
        })
    }

    /// The number of entries.
    pub fn count(&self) -> u32
        ensures { result ≡ self.now.count }
    {
        self.count
    }

    /// Reads the entry of a number, which is below the count.
    pub fn at(&mut self, store: &mut S, i: u32, out: &mut FrontEntry) -> Result<(), PartErr>
        requires fits { FrontFits self.old (S.files store.old) }
        requires below { i < self.old.count }
        ensures step { Between S.files S.reads S.faults store.old store.new
            (ReaderLooked self.old self.new 1 result) }
        ensures entry { (es : List Entry) → FrontStands self.old (S.files store.old) es →
            AnswersAt result self.old.width i out.new es }
        // Whatever the parts hold, the entry stands there.
        ensures stood { IsSome (S.files store.old) → IfOk result (λ done.
            EntryStands self.old (S.files store.old) (i / 4) (i % 4)
            (entry_of self.old.width out.new)) }
        ensures bad { IfErr result (λ refusal.
            IsLost refusal self.old (S.files store.old) (i / 4)) }
    {
        let place = match place_of(&mut self.places, store, i / 4) {
            Ok(place) => place,
            Err(refusal) => return Err(refusal),
        };
        match read_block(&mut self.strings, store, place, self.width, i % 4, out) {
            Ok(true) => return Ok(()),
            Ok(false) => {}
            Err(_) => return Err(PartErr::Device),
        }
        Err(PartErr::Bad(Bad {
            part: self.strings.part(),
            at: place,
            low: 1,
            high: 1,
            found: 0,
        }))
    }

    /// The number of a string, and its entry; None where it is no entry's string.
    ///
    /// It goes over the whole entries first, and then reads the entries behind one. Each whole
    /// entry that it looks at takes at most one page of the places and two of the strings.
    pub fn find(
        &mut self,
        store: &mut S,
        string: &[u8],
        out: &mut FrontEntry,
    ) -> Result<Option<u32>, PartErr>
        requires fits { FrontFits self.old (S.files store.old) }
        // Whatever the parts hold, the entry stands, or those around the string do.
        ensures { Between S.files S.reads S.faults store.old store.new
            (LooksUp self.old self.new (looks self.old.count) result
            (AnswersFind result self.old.width string.now out.new)
            (λ files. FindStands self.old files string.now out.new)
            (λ files refusal. IsLostAmong refusal self.old files)) }
    {
        let block = match self.block_of(store, string, out) {
            Ok(Some(block)) => block,
            Ok(None) => return Ok(None),
            Err(refusal) => return Err(refusal),
        };
        self.find_in(store, block, string, out)
    }

    // The last block whose first string is not above the string.
    fn block_of(
        &mut self,
        store: &mut S,
        string: &[u8],
        out: &mut FrontEntry,
    ) -> Result<Option<u32>, PartErr>
        requires { FrontFits self.old (S.files store.old) }
        ensures below { IfOk result (λ block. IfSome block (λ b. 4 * b < self.old.count)) }
        ensures look { Between S.files S.reads S.faults store.old store.new
            (LooksUp self.old self.new (halvings (div_ceil self.old.count 4)) result
            (AnswersBlock result string.now)
            (λ files. BlockStands self.old files string.now)
            (λ files refusal. IsLostAmong refusal self.old files)) }
    {
        let mut low = 0u32;
        let mut high = self.count().div_ceil(4);
        while low < high {
            let middle = low + (high - low) / 2;
            match self.at(store, 4 * middle, out) {
                Ok(()) => {}
                Err(refusal) => return Err(refusal),
            }
            let above = is_below(string, out.bytes());
            low = lower(above, middle, low);
            high = higher(above, middle, high);
        }
        if low == 0 {
            return Ok(None);
        }
        Ok(Some(low - 1))
    }

    // The number of the string among those of a block.
    fn find_in(
        &mut self,
        store: &mut S,
        block: u32,
        string: &[u8],
        out: &mut FrontEntry,
    ) -> Result<Option<u32>, PartErr>
        requires fits { FrontFits self.old (S.files store.old) }
        requires below { 4 * block < self.old.count }
        ensures { Between S.files S.reads S.faults store.old store.new
            (LooksUp self.old self.new 1 result
            (AnswersIn result block self.old.width string.now out.new)
            (λ files. InStands self.old files block string.now out.new)
            (λ files refusal. IsLost refusal self.old files block)) }
    {
        let place = match place_of(&mut self.places, store, block) {
            Ok(place) => place,
            Err(refusal) => return Err(refusal),
        };
        let most = (self.count - 4 * block).min(4);
        let entries = BlockAt {
            from: place,
            width: self.width,
            most,
        };
        let scan = match scan_block(&mut self.strings, store, entries, string, out) {
            Ok(scan) => scan,
            Err(_) => return Err(PartErr::Device),
        };
        let number = match scan {
            Scan::Found(number) => number,
            Scan::Absent => return Ok(None),
            Scan::Damaged => {
                return Err(PartErr::Bad(Bad {
                    part: self.strings.part(),
                    at: place,
                    low: 1,
                    high: 1,
                    found: 0,
                }));
            }
        };
        Ok(Some(4 * block + number))
    }
}

/// Whether an entry has this string.
fn is_same(entry: &FrontEntry, string: &[u8]) -> bool
    ensures yes { OnTrue result (string_of entry.now ≡ string.now) }
    ensures no { OnFalse result (string_of entry.now ≢ string.now) }
{
    entry.bytes() == string
}

fn lower(above: bool, middle: u32, low: u32) -> u32
    requires { middle < 2 ^ 32 - 1 }
    ensures { result ≡ (if above then low else middle + 1) }
{
    if above { low } else { middle + 1 }
}

fn higher(above: bool, middle: u32, high: u32) -> u32
    ensures { result ≡ (if above then middle else high) }
{
    if above { middle } else { high }
}
