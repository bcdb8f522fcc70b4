//! The head of a set.
ghost use Rattle.std.specs.Prelude.{◌≡◌, ◌⊎◌, ◌+◌, ◌≤◌, IsSome, length};
ghost use Rattle.mg_dev.specs.Causes.{HasPutCause};
ghost use Rattle.mg_dev.specs.Files.{AfterAppend, OneRead, SameReads, part_bytes};
ghost use Rattle.mg_dev.specs.Names.{full_name};
ghost use Rattle.mg_dev.specs.PartCauses.{HasPartCause};
ghost use Rattle.mg_dev.specs.declared.part.Part.TheVariants as part;
ghost use Rattle.mg_defs.specs.Heads as defs;
ghost use Rattle.mg_layout.specs.HeadAnswers.{AnswersBack, AnswersHead, AnswersWithin, AreVersions, fields_of};

use crate::field_writer::FieldWriter;
use crate::read::parse;
use crate::version::{FIRST, LAST};
use mg_dev::{Bad, FileRef, Part, PartErr, PutErr, Store};

/// The head of a set: its version, and the numbers of the collection and of the other parts.
#[derive(Clone, Copy, Debug, PartialEq, Eq)]
pub struct Head {
    /// 1 or 2; sets that are built have [`crate::BUILT`].
    pub version: u8,
    pub documents: u32,
    /// How many distinct words there are, and how many distinct others.
    pub words: u32,
    pub others: u32,
    pub terms: u32,
    /// How many occurrences each run but the last was made of.
    pub cap: u32,
    /// Whether no byte closes the last document.
    pub open_end: bool,
    /// How many bytes the collection has.
    pub collection: u64,
    pub occurrences: u64,
    pub runs: u32,
    pub text_bytes: u64,
    pub post_bytes: u64,
    pub skip_count: u64,
}

impl Head {
    /// Appends the head's bytes, 64 in version 1 and 80 in version 2, in one append.
    pub fn write<S: Store>(&self, store: &mut S, base: &str) -> Result<(), PutErr>
        requires within { defs.IsWithin (fields_of self.now) }
        ensures content { AfterAppend (S.files store.old) (S.files store.new)
            (full_name base.now part.Head) (defs.head_bytes (fields_of self.now)) result }
        ensures reads { SameReads (S.reads store.old) (S.reads store.new) }
        ensures cause { HasPutCause (S.faults store.old) (S.faults store.new) result }
    {
        let file = FileRef {
            base,
            part: Part::Head,
        };
        let fields = self.fields();
        store.append(&file, fields.bytes())
    }

    #[tactic(auto, unfolding(mg_defs::specs::Heads::head_bytes))]
    fn fields(&self) -> FieldWriter
        requires within { defs.IsWithin (fields_of self.now) }
        ensures { result ≡ defs.head_bytes (fields_of self.now) }
    {
        if self.version == 1 {
            self.narrow_fields()
        } else {
            self.wide_fields()
        }
    }

    // The fields that stand at one place in every version.
    fn first_fields(&self) -> FieldWriter
        requires version { self.now.version ≤ 2 }
        ensures bytes { result ≡ defs.first_fields (fields_of self.now) }
        ensures length { length result ≡ 32 }
    {
        let mut fields = FieldWriter::new();
        fields.put(&magic(self.version));
        fields.put_u32(self.documents);
        fields.put_u32(self.words);
        fields.put_u32(self.others);
        fields.put_u32(self.terms);
        fields.put_u32(self.cap);
        fields.put_u32(as_number(self.open_end));
        fields
    }

    fn narrow_fields(&self) -> FieldWriter
        requires version { self.now.version ≡ 1 }
        requires within { defs.IsWithin (fields_of self.now) }
        ensures { result ≡ defs.narrow_bytes (fields_of self.now) }
    {
        let mut fields = self.first_fields();
        fields.put_u32(self.collection as u32);
        fields.put_u32(self.occurrences as u32);
        fields.put_u32(self.runs);
        fields.put_u32(self.text_bytes as u32);
        fields.put_u64(self.post_bytes);
        fields.put_u64(self.skip_count);
        fields
    }

    fn wide_fields(&self) -> FieldWriter
        requires version { self.now.version ≤ 2 }
        ensures { result ≡ defs.wide_bytes (fields_of self.now) }
    {
        let mut fields = self.first_fields();
        fields.put_u64(self.collection);
        fields.put_u64(self.occurrences);
        fields.put_u32(self.runs);
        fields.put_u32(0);
        fields.put_u64(self.text_bytes);
        fields.put_u64(self.post_bytes);
        fields.put_u64(self.skip_count);
        fields
    }

    /// Loads a head of version 1 or 2: None exactly where the part is missing or empty, and the
    /// first damage where its bytes are no such head.
    pub fn load<S: Store>(store: &mut S, base: &str) -> Result<Option<Head>, PartErr>
        ensures answer { IsSome (S.files store.old) →
            AnswersHead 1 2 (part_bytes base.now part.Head (S.files store.old)) result }
        ensures back { IsSome (S.files store.old) → (h : defs.Head) →
            defs.IsHead 1 2 (part_bytes base.now part.Head (S.files store.old)) h →
            AnswersBack h result }
        ensures within { AnswersWithin result }
        ensures files { S.files store.new ≡ S.files store.old }
        ensures reads { SameReads (S.reads store.old) (S.reads store.new)
            ⊎ OneRead (S.reads store.old) (S.reads store.new) part.Head }
        ensures cause { HasPartCause (S.faults store.old) (S.faults store.new) result }
    {
        load_from(store, base, FIRST, LAST)
    }
}

// A head's first eight bytes.
fn magic(version: u8) -> [u8; 8]
    requires { version ≤ 2 }
    ensures { result ≡ defs.magic version }
{
    [b'M', b'G', b'R', b'O', b'W', b'v', b'0' + version, b'\n']
}

fn as_number(open_end: bool) -> u32
    ensures { result ≡ defs.as_number open_end }
{
    if open_end { 1 } else { 0 }
}

// Loads a head of a version from low to high.
fn load_from<S: Store>(
    store: &mut S,
    base: &str,
    low: u8,
    high: u8,
) -> Result<Option<Head>, PartErr>
    requires { AreVersions low high }
    ensures answer { IsSome (S.files store.old) →
        AnswersHead low high (part_bytes base.now part.Head (S.files store.old)) result }
    ensures within { AnswersWithin result }
    ensures files { S.files store.new ≡ S.files store.old }
    ensures reads { SameReads (S.reads store.old) (S.reads store.new)
        ⊎ OneRead (S.reads store.old) (S.reads store.new) part.Head }
    ensures cause { HasPartCause (S.faults store.old) (S.faults store.new) result }
{
    let file = FileRef {
        base,
        part: Part::Head,
    };
    let size = match store.size(&file) {
        Ok(size) => size.unwrap_or(0),
        Err(_) => return Err(PartErr::Device),
    };
    if size == 0 {
        return Ok(None);
    }
    if size < 64 {
        return Err(PartErr::Bad(Bad {
            part: Part::Head,
            at: 0,
            low: 64,
            high: 64,
            found: size,
        }));
    }
    let mut bytes = [0u8; 80];
    match store.read_at(&file, 0, &mut bytes) {
        Ok(_) => {}
        Err(_) => return Err(PartErr::Device),
    }
    match parse(&bytes, size, low, high) {
        Ok(head) => Ok(Some(head)),
        Err(bad) => Err(PartErr::Bad(bad)),
    }
}
