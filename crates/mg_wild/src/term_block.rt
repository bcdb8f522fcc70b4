//! The terms of a lexicon in one block of bytes.
ghost use Rattle.std.specs.Prelude.{◌≡◌, ◌<◌, ◌≤◌, ◌+◌, ◌-◌, ◌++◌, ◌∷◌, [], IfOk, OnOk, Some, get_or, length, slice_get, slice_index, take, drop};
ghost use Rattle.mg_defs.specs.Lexicon.{info_bytes};
ghost use Rattle.mg_defs.specs.Rotations.{most_rotations};
ghost use Rattle.mg_front.specs.Entries.{string_of};
ghost use Rattle.mg_layout.specs.Infos.{info_of};
ghost use Rattle.mg_lex.specs.Terms.{FitsField};
ghost use Rattle.mg_wild.specs.Terms.{AreNumbered, start_of as start_of_spec, total};
ghost use Rattle.mg_wild.specs.Loading.{field_bytes};

use mg_front::FrontEntry;
use mg_layout::TermInfo;
use std::alloc::{AllocError, Global};
use std::marker::Model;

/// The terms of a lexicon one after the other in one block of bytes, where each ends, and what the
/// lexicon tells of each.
#[derive(Drop)]
pub(crate) struct TermBlock {
    bytes: Vec<u8>,
    ends: Vec<u32>,
    infos: Vec<TermInfo>,
}

impl Model for TermBlock {
    ghost use Rattle.mg_wild.specs.Terms.{IsTermBlock, LexTerms, cut};

    ghost Value = { LexTerms };

    ghost view = { λ b. record { terms = cut 0 b.ends.items b.bytes.items; infos = b.infos.items } };

    ghost invariant = { λ b. IsTermBlock b.ends.items b.bytes.items b.infos.items };
}

/// The string of an entry.
pub(crate) fn string_in(entry: &FrontEntry) -> &[u8]
    ensures string { result.now ≡ string_of entry.now }
    ensures short { length result.now ≤ 255 }
{
    &entry.string[..usize::from(entry.length)]
}

/// What an entry of this number tells of its term.
fn info_in(number: u32, entry: &FrontEntry) -> TermInfo
    ensures number { result.number ≡ number }
    ensures field { info_bytes (info_of result) ≡ take 16 entry.now.field }
    ensures fits { FitsField (info_of result) }
{
    let mut field = [0u8; 16];
    field.copy_from_slice(&entry.field[..16]);
    TermInfo::of_field(number, &field)
}

/// Where the term of a number begins.
fn start_of(ends: &[u32], number: usize) -> u32
    requires { number < length ends.now }
    ensures { result ≡ start_of_spec ends.now number }
{
    if number == 0 { 0 } else { ends[number - 1] }
}

/// Where the term of a number ends.
fn end_of(ends: &[u32], number: usize) -> u32
    requires { number < length ends.now }
    ensures { result ≡ slice_index ends.now number }
{
    ends[number]
}

/// The bytes from one place to another.
fn part(bytes: &[u8], start: u32, end: u32) -> &[u8]
    requires order { start ≤ end }
    requires within { end ≤ length bytes.now }
    ensures { result.now ≡ take (end - start) (drop start bytes.now) }
{
    &bytes[start as usize..end as usize]
}

impl TermBlock {
    /// A block of no term.
    pub(crate) fn new(alloc: Global) -> TermBlock
        ensures terms { result.terms ≡ [] }
        ensures infos { result.infos ≡ [] }
    {
        TermBlock {
            bytes: Vec::new(alloc),
            ends: Vec::new(alloc),
            infos: Vec::new(alloc),
        }
    }

    /// The number of terms.
    pub(crate) fn len(&self) -> u32
        ensures terms { result ≡ length self.now.terms }
        ensures infos { result ≡ length self.now.infos }
        ensures few { result ≤ most_rotations }
    {
        self.ends.len() as u32
    }

    /// How many bytes the terms have together.
    pub(crate) fn size(&self) -> u32
        ensures { result ≡ total self.now.terms }
    {
        self.bytes.len() as u32
    }

    /// Adds the term of an entry, where that is within the most rotations.
    pub(crate) fn push(&mut self, entry: &FrontEntry) -> Result<(), AllocError>
        requires { total self.old.terms + length (string_of entry.now) + length self.old.terms
            < most_rotations }
        ensures terms { OnOk result (self.new.terms ≡ self.old.terms ++ string_of entry.now ∷ []) }
        ensures fields { OnOk result (field_bytes self.new.infos ≡ field_bytes self.old.infos
            ++ take 16 entry.now.field ∷ []) }
        ensures numbered { OnOk result (AreNumbered 0 self.new.infos) }
    {
        self.ends.reserve(1)?;
        self.infos.reserve(1)?;
        let number = self.ends.len() as u32;
        let string = string_in(entry);
        let end = self.bytes.len() + string.len();
        self.bytes.extend_from_slice(string)?;
        self.ends.push_reserved(end as u32);
        self.infos.push_reserved(info_in(number, entry));
        Ok(())
    }

    /// The term with a number, empty where there is none.
    pub(crate) fn term(&self, number: u32) -> &[u8]
        ensures term { result.now ≡ get_or self.now.terms number [] }
        ensures short { length result.now ≤ 255 }
    {
        let number = number as usize;
        if number >= self.ends.len() {
            return &[];
        }
        let start = start_of(&self.ends, number);
        let end = end_of(&self.ends, number);
        part(&self.bytes, start, end)
    }

    /// What the lexicon tells of the term with a number.
    pub(crate) fn info(&self, number: u32) -> TermInfo
        requires { number < length self.now.infos }
        ensures info { slice_get self.now.infos number ≡ Some result }
        ensures number { result.number ≡ number }
    {
        self.infos[number as usize]
    }
}
