//! A collection that is held as it is.
ghost use Rattle.std.specs.Prelude.{◌≡◌, ◌≤◌, ◌^◌, false, length, vec_len, Some, IsSome, IfOk, IfErr, IsErrOf};
ghost use Rattle.mg_dev.specs.Causes.{Rose};
ghost use Rattle.mg_dev.specs.Files.{HasSize, file_at};
ghost use Rattle.mg_dev.specs.Names.{same_part};
ghost use Rattle.mg_dev.specs.declared.part.Part.{Part};
ghost use Rattle.mg_dev.specs.declared.part.Part.TheVariants.{Plain};
ghost use Rattle.mg_dev.specs.Streams.{AfterPut};
ghost use Rattle.mg_defs.specs.Limits.{held_bytes, line_bytes};
ghost use Rattle.mg_defs.specs.Replies.{reply};
ghost use Rattle.mg_plain.specs.Stops.{AnswerStops, LoadStops, LoadsText};

use crate::boolean::answer_boolean;
use crate::ranked::answer_ranked;
use mg_defs::{HELD_BYTES, Settings};
use mg_dev::{Fault, FileRef, Part, PartErr, ShowErr, Sink, Store, What};
use std::alloc::{AllocError, Global};
use std::marker::Model;

/// A collection, all its bytes in memory.
///
/// It is the slow and plain way to search: each line reads every document. Contracts see it as the
/// list of the collection's bytes.
#[derive(Drop)]
pub struct PlainText {
    bytes: Vec<u8>,
}

impl Model for PlainText {
    ghost use Rattle.std.specs.Prelude.{List, ℕ, ◌≤◌, ◌^◌, vec_len};

    ghost Value = { List ℕ };

    ghost view = { λ p. p.bytes.items };

    ghost invariant = { λ p. vec_len p.bytes ≤ 2 ^ 28 };
}

fn zeros(alloc: Global, len: usize) -> Result<Vec<u8>, AllocError>
    ensures { IfOk result (λ bytes. vec_len bytes ≡ len) }
{
    vec![in alloc; 0; len]
}

/// Reads a file of this size.
fn read_whole<S: Store>(
    alloc: Global,
    store: &mut S,
    name: &str,
    size: u64,
) -> Result<PlainText, Fault>
    requires small { size ≤ held_bytes }
    requires known { HasSize (S.files store.old) name.now size }
    ensures { LoadsText name.now result S.Store store.old store.new }
{
    let file = FileRef {
        base: name,
        part: Part::Plain,
    };
    let mut bytes = match zeros(alloc, size as usize) {
        Ok(bytes) => bytes,
        Err(_) => return Err(Fault::Memory),
    };
    let count = match store.read_at(&file, 0, &mut bytes) {
        Ok(count) => count,
        Err(_) => return Err(Fault::StoreFault),
    };
    if count != bytes.len() {
        return Err(Fault::Changed {
            what: What::Size,
            first: size,
            second: count as u64,
        });
    }
    Ok(PlainText { bytes })
}

impl PlainText {
    /// Reads the collection of this name.
    ///
    /// # Errors
    ///
    /// `NoCollection` where the file is missing, `TooLarge` where it has more than 2^28 bytes,
    /// `Changed` where it gave fewer bytes than its size.
    #[tactic(auto, using(mg_dev::specs::Laws::file_laws))]
    pub fn load<S: Store>(alloc: Global, store: &mut S, name: &str) -> Result<PlainText, Fault>
        ensures content { IsSome (S.files store.old) →
            IfOk result (λ text. file_at (S.files store.old) name.now ≡ Some text) }
        ensures small { IfOk result (λ text. length text ≤ held_bytes) }
        ensures cause { IfErr result
            (LoadStops (Rose (S.faults store.old) (S.faults store.new)) (S.files store.old)
            name.now) }
        ensures files { S.files store.new ≡ S.files store.old }
        ensures reads { (p : Part) → same_part p Plain ≡ false →
            S.reads store.new p ≡ S.reads store.old p }
        ensures later { S.faults store.old ≤ S.faults store.new }
    {
        let file = FileRef {
            base: name,
            part: Part::Plain,
        };
        let size = match store.size(&file) {
            Ok(Some(size)) => size,
            Ok(None) => return Err(Fault::NoCollection),
            Err(_) => return Err(Fault::StoreFault),
        };
        if size > HELD_BYTES {
            return Err(Fault::TooLarge {
                size,
                most: HELD_BYTES,
            });
        }
        read_whole(alloc, store, name, size)
    }

    /// Writes the reply to a query line, ranked or Boolean as the settings say.
    ///
    /// # Errors
    ///
    /// `Write` where the output failed and `Memory` where it lacked memory, behind a prefix of the
    /// reply; `Part` with `PartErr::Memory` where the allocator lacked memory, before the first byte.
    #[tactic(auto, unfolding(mg_defs::specs::Replies::reply))]
    pub fn answer<O: Sink>(
        &self,
        alloc: Global,
        line: &[u8],
        now: &Settings,
        out: &mut O,
    ) -> Result<(), ShowErr>
        requires { length line.now ≤ line_bytes }
        ensures content { AfterPut (O.written out.old) (O.written out.new)
            (reply self.now now.now line.now) result }
        ensures later { O.faults out.old ≤ O.faults out.new }
        ensures cause { IfErr result
            (AnswerStops (Rose (O.faults out.old) (O.faults out.new))
            (Rose (O.lacks out.old) (O.lacks out.new))) }
        // The allocator lacks memory only before anything is written.
        ensures silent { IsErrOf result (ShowErr.Part PartErr.Memory) →
            O.written out.new ≡ O.written out.old }
    {
        if now.ranked {
            answer_ranked(alloc, &self.bytes, line, now, out)
        } else {
            answer_boolean(alloc, &self.bytes, line, now, out)
        }
    }
}
