//! Entries into a part, in order.
ghost use Rattle.std.specs.Prelude.{◌≡◌, ◌≢◌, ◌≤◌, ◌<◌, ◌+◌, ◌^◌, List, [], IfOk, OnOk, length, take, None, Some};
ghost use Rattle.std.specs.Option.{option_map, ForSome};
ghost use Rattle.mg_dev.specs.Files.{written};
ghost use Rattle.mg_dev.specs.Causes.{HasPutCause};
ghost use Rattle.mg_dev.specs.Moments.{Between};
ghost use Rattle.mg_defs.specs.Front.{Entry, IsEntry};
ghost use Rattle.mg_front.specs.Fronting.{TookAlso, Took, IsOther, StartedPlaces, WroteToAsked, WritesFront, IsNotAsked, HoldsNothing, PutsPlaces, with_empty, FinishedAll};
ghost use Rattle.mg_dev.specs.Names.{file_name};

use crate::put::{put_entry, put_place};
use mg_bits::PageWriter;
use mg_dev::{FileRef, PutErr, Store};
use std::alloc::Global;
use std::marker::Model;

/// Writes front-coded entries, and the places of whole ones.
#[derive(Drop)]
pub struct FrontWriter<'a> {
    strings: PageWriter<'a>,
    places: Option<PageWriter<'a>>,
    width: usize,
    count: u32,
    place: u64,
    last: [u8; 255],
    length: usize,
}

impl<'a> Model for FrontWriter<'a> {
    ghost use Rattle.std.specs.Prelude.{◌≡◌, ◌≤◌, ◌*◌, ◌^◌, take};
    ghost use Rattle.mg_front.specs.Fronting.{Fronting};

    ghost Value = { Fronting };

    ghost view = { λ w. record { strings = w.strings; places = w.places; width = w.width; count = w.count; place = w.place; last = take w.length w.last } };

    ghost invariant = { λ w. (w.width ≤ 24) × (w.length ≤ 255) × (w.place ≤ 281 * w.count) × (w.count ≤ 2 ^ 22) };
}

/// Keeps a string.
fn keep(last: &mut [u8; 255], string: &[u8])
    requires { length string.now ≤ 255 }
    ensures { take (length string.now) last.new ≡ string.now }
{
    last[..string.len()].copy_from_slice(string);
}

// The writer of the places, where a file was asked for.
fn start_places<'a, S: Store>(
    alloc: Global,
    store: &mut S,
    places: Option<FileRef<'a>>,
) -> Result<Option<PageWriter<'a>>, PutErr>
    ensures started { IfOk result
        (λ writer. StartedPlaces (option_map file_name places.entry) writer (S.files store.old)
        (S.files store.new)) }
    ensures empty { OnOk result (S.files store.new ≡ with_empty (S.files store.old)
        (option_map file_name places.entry)) }
    ensures wrote { WroteToAsked (option_map file_name places.entry) (S.files store.old)
        (S.files store.new)
        (S.reads store.old) (S.reads store.new) }
    ensures cause { HasPutCause (S.faults store.old) (S.faults store.new) result }
{
    match places {
        None => Ok(None),
        Some(file) => match PageWriter::start(alloc, store, file) {
            Ok(writer) => Ok(Some(writer)),
            Err(refusal) => Err(refusal),
        },
    }
}

// Writes the places that are held, where there are any.
fn finish_places<S: Store>(places: &mut Option<PageWriter<'_>>, store: &mut S) -> Result<(), PutErr>
    ensures put { Between S.files S.reads S.faults store.old store.new
        (PutsPlaces places.old places.new [] result) }
    ensures nothing { OnOk result (HoldsNothing places.new) }
{
    match places {
        None => Ok(()),
        Some(writer) => writer.finish(store),
    }
}

impl<'a> FrontWriter<'a> {
    /// A writer of entries whose fields have this width, from 0 to 24 bytes. The file of the strings,
    /// and that of the places where there is one, are there and empty then; their full names differ.
    pub fn start<S: Store>(
        alloc: Global,
        store: &mut S,
        strings: FileRef<'a>,
        places: Option<FileRef<'a>>,
        width: usize,
    ) -> Result<Self, PutErr>
        requires width { width ≤ 24 }
        requires apart { ForSome (option_map file_name places) (λ name. name ≢ file_name strings) }
        ensures took { IfOk result (λ writer. Took writer (S.files store.new) []) }
        ensures empty { OnOk result (S.files store.new ≡
            with_empty (written (S.files store.old) (file_name strings.entry) [])
            (option_map file_name places.entry)) }
        ensures name { IfOk result (λ writer. writer.strings.name ≡ file_name strings.entry) }
        ensures places { IfOk result (λ writer. option_map (λ places. places.name) writer.places
            ≡ option_map file_name places.entry) }
        ensures width { IfOk result (λ writer. writer.width ≡ width) }
        ensures step { Between S.files S.reads S.faults store.old store.new
            (WritesFront (λ n. IsNotAsked n (file_name strings.entry)
            (option_map file_name places.entry)) result) }
    {
        let string_writer = match PageWriter::start(alloc, store, strings) {
            Ok(writer) => writer,
            Err(refusal) => return Err(refusal),
        };
        let place_writer = match start_places(alloc, store, places) {
            Ok(writer) => writer,
            Err(refusal) => return Err(refusal),
        };
        Ok(FrontWriter {
            strings: string_writer,
            places: place_writer,
            width,
            count: 0,
            place: 0,
            last: [0; 255],
            length: 0,
        })
    }

    /// Writes one entry more, whose string is above the last one.
    pub fn push<S: Store>(
        &mut self,
        store: &mut S,
        string: &[u8],
        field: &[u8],
    ) -> Result<(), PutErr>
        requires took { (es : List Entry) × Took self.old (S.files store.old) es }
        requires few { self.old.count < 2 ^ 22 }
        requires width { self.old.width ≤ 24 }
        requires entry { IsEntry self.old.width self.old.count self.old.last
            (record { string = string.now; field = field.now }) }
        ensures took { OnOk result (TookAlso self.old self.new (S.files store.old)
            (S.files store.new) (record { string = string.now; field = field.now })) }
        ensures count { OnOk result (self.new.count ≡ self.old.count + 1) }
        ensures last { OnOk result (self.new.last ≡ string.now) }
        ensures name { OnOk result (self.new.strings.name ≡ self.old.strings.name) }
        ensures places { OnOk result (option_map (λ places. places.name) self.new.places
            ≡ option_map (λ places. places.name) self.old.places) }
        ensures width { self.new.width ≡ self.old.width }
        ensures step { Between S.files S.reads S.faults store.old store.new
            (WritesFront (λ n. IsOther n self.old.strings.name self.old.places) result) }
    {
        put_place(&mut self.places, store, self.count, self.place)?;
        let size = put_entry(
            &mut self.strings,
            store,
            self.count,
            &self.last[..self.length],
            string,
            field,
        )?;
        keep(&mut self.last, string);
        self.length = string.len();
        self.place += size;
        self.count += 1;
        Ok(())
    }

    /// Writes what is held. Then the files hold the entries that were pushed, and the places of the
    /// whole ones.
    pub fn finish<S: Store>(&mut self, store: &mut S) -> Result<(), PutErr>
        requires took { (es : List Entry) × Took self.old (S.files store.old) es }
        ensures finished { OnOk result
            (FinishedAll self.old (S.files store.old) (S.files store.new)) }
        ensures width { self.new.width ≡ self.old.width }
        ensures step { Between S.files S.reads S.faults store.old store.new
            (WritesFront (λ n. IsOther n self.old.strings.name self.old.places) result) }
    {
        match self.strings.finish(store) {
            Ok(()) => {}
            Err(refusal) => return Err(refusal),
        }
        match finish_places(&mut self.places, store) {
            Ok(()) => Ok(()),
            Err(refusal) => Err(refusal),
        }
    }
}
