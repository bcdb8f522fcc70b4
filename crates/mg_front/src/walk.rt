//! All entries of a part, in order.
ghost use Rattle.std.specs.Prelude.{Err, None, ◌≢◌, ◌≡◌, ◌≤◌, ◌<◌, ◌+◌, List, [], IfOk, IfErr, IsSome};
ghost use Rattle.mg_dev.specs.Bads.{IsBad};
ghost use Rattle.mg_dev.specs.Files.{bytes_at};
ghost use Rattle.mg_dev.specs.PartCauses.{HasPartCause};
ghost use Rattle.mg_bits.specs.Pages.{Looked};
ghost use Rattle.mg_defs.specs.Front.{Entry};
ghost use Rattle.mg_front.specs.Entries.{string_of};
ghost use Rattle.mg_front.specs.Walk.{Gave, SameWalk, AnswersNext, AfterNext, AnswersAmong, ReadsNext, RisesNext, WhereFront, GaveNext, Stepped};
ghost use Rattle.mg_dev.specs.declared.part_err.PartErr.TheVariants.{Memory};
ghost use Rattle.mg_front.specs.declared.entry.FrontEntry.{FrontEntry as Read};
ghost use Rattle.mg_dev.specs.Moments.{Between};
ghost use Rattle.mg_dev.specs.Names.{file_name};

use crate::FrontEntry;
use crate::entry::{EntryAt, may_follow, read_entry};
use crate::held::take_entry;
use mg_bits::PageFeed;
use mg_dev::{Bad, FileRef, Part, PartErr, Store};
use std::alloc::Global;
use std::marker::Model;

/// A walk over the entries of a part, in their order.
///
/// It keeps a page of the part and the last entry, and checks each entry as it comes: its string
/// rises above the last one, and its parts stand whole in the part. It never asks for more than
/// `count` entries, and every call returns whatever the part holds.
#[derive(Drop)]
pub struct FrontWalk<'a, S> {
    strings: FileRef<'a>,
    feed: PageFeed<'a, S>,
    width: usize,
    count: u32,
    done: u32,
    place: u64,
    last: FrontEntry,
}

impl<'a, S> Model for FrontWalk<'a, S> {
    ghost use Rattle.std.specs.Prelude.{◌≡◌, ◌≤◌, ◌*◌};
    ghost use Rattle.mg_front.specs.Entries.{string_of};
    ghost use Rattle.mg_dev.specs.Names.{file_name};
    ghost use Rattle.mg_front.specs.Walk.{Walking};

    ghost Value = { Walking };

    ghost view = { λ w. record { feed = w.feed; width = w.width; count = w.count; done = w.done; place = w.place; last = string_of w.last } };

    ghost invariant = { λ w. (w.width ≤ 24) × (w.done ≤ w.count) × (w.place ≤ 281 * w.done) × (w.feed.name ≡ file_name w.strings) ×
        (w.feed.part ≡ w.strings.part) };
}

/// Keeps the string of an entry: its bytes alone, since most strings are short.
fn keep_string(last: &mut FrontEntry, entry: &FrontEntry)
    ensures { string_of last.new ≡ string_of entry.now }
{
    let string = entry.bytes();
    last.string[..string.len()].copy_from_slice(string);
    last.length = entry.length;
}

/// No entry stands at this place of a part.
fn bad_at(part: Part, at: u64) -> Bad
    ensures { IsBad result part at 1 1 0 }
{
    Bad {
        part,
        at,
        low: 1,
        high: 1,
        found: 0,
    }
}

impl<'a, S: Store> FrontWalk<'a, S> {
    /// A walk that has given no entry.
    pub fn load(
        alloc: Global,
        _store: &mut S,
        strings: FileRef<'a>,
        width: usize,
        count: u32,
    ) -> Result<Self, PartErr>
        requires width { width ≤ 24 }
        ensures gave { IfOk result (λ walk. Gave walk (S.files _store.new) []) }
        ensures name { IfOk result (λ walk. walk.feed.name ≡ file_name strings.entry) }
        ensures part { IfOk result (λ walk. walk.feed.part ≡ strings.entry.part) }
        ensures held { IfOk result (λ walk. walk.feed.held ≡ None) }
        ensures place { IfOk result (λ walk. walk.place ≡ 0) }
        ensures width { IfOk result (λ walk. walk.width ≡ width) }
        ensures count { IfOk result (λ walk. walk.count ≡ count) }
        ensures memory { IfErr result (λ refusal. refusal ≡ Memory) }
        ensures store { _store.new ≡ _store.old }
    {
        Ok(FrontWalk {
            strings,
            feed: PageFeed::new(alloc, strings)?,
            width,
            count,
            done: 0,
            place: 0,
            last: FrontEntry::new(),
        })
    }

    /// The next entry; false after the last. It answers that the part is bad where no entry stands
    /// next, for any string above the last one and any field, and where bytes are left over. The
    /// calls together read each page at most once, up to the first refusal.
    pub fn next(&mut self, store: &mut S, out: &mut FrontEntry) -> Result<bool, PartErr>
        requires gave { (es : List Entry) × Gave self.old (S.files store.old) es }
        ensures gave { GaveNext self.old self.new (S.files store.old) (S.files store.new) result
            out.new }
        ensures answer { IsSome (S.files store.old) →
            AnswersNext result self.old out.new (bytes_at (S.files store.old) self.old.feed.name) }
        ensures step { IfOk result (λ more. AfterNext more self.old self.new) }
        // Over any store, an entry that is given is above the one before.
        ensures rises { IfOk result (λ more. RisesNext more self.old self.new out.new) }
        ensures same { SameWalk self.old self.new }
        ensures looked { Between S.files S.reads S.faults store.old store.new
            (Looked self.old.feed.part) }
        ensures reads { ReadsNext result self.old self.new (S.reads store.old) (S.reads store.new) }
        ensures cause { HasPartCause (S.faults store.old) (S.faults store.new) result }
        ensures among { WhereFront self.old (S.files store.old)
            (AnswersAmong result self.old out.new) }
        ensures memory { result ≢ Err PartErr.Memory }
    {
        self.step(store, out)
    }

    // The next entry, over any bytes.
    fn step(&mut self, store: &mut S, out: &mut FrontEntry) -> Result<bool, PartErr>
        requires { (es : List Entry) × Gave self.old (S.files store.old) es }
        ensures { Between S.files S.reads S.faults store.old store.new
            (Stepped self.old self.new out.new result) }
    {
        if self.done < self.count {
            let bytes = self.feed.held_from(self.place);
            let size = take_entry(self.done, bytes, self.width, &mut self.last, out);
            if size > 0 {
                self.place += size;
                self.done += 1;
                return Ok(true);
            }
        }
        self.step_by_pages(store, out)
    }

    // The next entry, which need not lie whole on the page that is held. It stands apart so that what
    // is asked for each entry is short.
    #[inline(never)]
    fn step_by_pages(&mut self, store: &mut S, out: &mut FrontEntry) -> Result<bool, PartErr>
        requires { (es : List Entry) × Gave self.old (S.files store.old) es }
        ensures { Between S.files S.reads S.faults store.old store.new
            (Stepped self.old self.new out.new result) }
    {
        if self.done == self.count {
            return self.end(store);
        }
        let at = EntryAt {
            place: self.place,
            width: self.width,
            number: self.done,
        };
        match read_entry(&mut self.feed, store, at, &self.last, out) {
            Ok(Some(size)) => {
                // Reading promises it only where the files are told, so it is asked again.
                if !may_follow(self.done, &self.last, out) {
                    return Err(PartErr::Bad(bad_at(self.strings.part, self.place)));
                }
                keep_string(&mut self.last, out);
                self.place += size;
                self.done += 1;
                Ok(true)
            }
            Ok(None) => Err(PartErr::Bad(bad_at(self.strings.part, self.place))),
            Err(_) => Err(PartErr::Device),
        }
    }

    // The end, where no byte is left over. It reads nothing.
    fn end(&self, store: &mut S) -> Result<bool, PartErr>
        requires { self.now.done ≡ self.now.count }
        ensures { (out : Read) → Between S.files S.reads S.faults store.old store.new
            (Stepped self.now self.now out result) }
    {
        let found = match store.size(&self.strings) {
            Ok(size) => size.unwrap_or(0),
            Err(_) => return Err(PartErr::Device),
        };
        if found <= self.place {
            return Ok(false);
        }
        Err(PartErr::Bad(Bad {
            part: self.strings.part,
            at: self.place,
            low: 0,
            high: 0,
            found: found - self.place,
        }))
    }
}
