//! A part of one base made from that of another: copied, or with wider numbers.
ghost use Rattle.std.specs.Prelude.{◌≡◌, ◌≢◌, ◌≤◌, ◌<◌, IfOk, OnOk, IsSome, length, vec_len};
ghost use Rattle.mg_dev.specs.Files.{AfterReset, file_bytes};
ghost use Rattle.mg_dev.specs.Names.{full_name};
ghost use Rattle.mg_dev.specs.declared.part.Part.TheVariants.{Plain};
ghost use Rattle.mg_migrate.specs.Copying.{HasCopied};
ghost use Rattle.mg_migrate.specs.Migrating.{IsCopied};
ghost use Rattle.mg_migrate.specs.Writing.{WritesFile};

use crate::bases::Bases;
use mg_dev::{Bad, Fault, FileRef, Part, Store};
use std::alloc::{AllocError, Global};

// Bytes that are copied at a time.
const BLOCK: usize = 1 << 16;

/// Room for the bytes that are copied at a time.
#[derive(Drop)]
pub(crate) struct Block {
    bytes: Vec<u8>,
    ghost room: { 1 ≤ vec_len bytes },
}

impl Block {
    pub(crate) fn new(alloc: Global) -> Result<Block, AllocError> {
        let bytes = vec![in alloc; 0; BLOCK]?;
        Ok(Block { bytes })
    }
}

/// Makes a part of a base empty.
#[tactic(auto, using(mg_dev::specs::Laws::file_laws))]
pub(crate) fn empty_part<S: Store>(store: &mut S, base: &str, part: Part) -> Result<(), Fault>
    ensures content { AfterReset (S.files store.old) (S.files store.new) (full_name base.now part)
        result }
    ensures writes { WritesFile (full_name base.now part) (Unit {0}) result S.Store store.old
        store.new }
{
    match store.reset(&FileRef { base, part }) {
        Ok(()) => Ok(()),
        Err(refusal) => Err(Fault::of_store(refusal)),
    }
}

// Adds the bytes of a file from a place on to another, at most so many and as many as the block takes.
fn copy_block<S: Store>(
    store: &mut S,
    from: &FileRef<'_>,
    to: &FileRef<'_>,
    at: u64,
    rest: u64,
    block: &mut Block,
) -> Result<u64, Fault>
    requires { 1 ≤ rest }
    ensures bytes { IsSome (S.files store.old) →
        IfOk result (λ n. HasCopied from.now to.now at (S.files store.old) (S.files store.new) n) }
    ensures some { IsSome (S.files store.old) →
        at < length (file_bytes from.now (S.files store.old)) → IfOk result (λ n. 1 ≤ n) }
    ensures within { IfOk result (λ n. n ≤ rest) }
    ensures writes { WritesFile (full_name to.now.base.now to.now.part) (Unit {0}) result S.Store
        store.old store.new }
{
    let read = match store.read_at(from, at, &mut block.bytes) {
        Ok(read) => read as u64,
        Err(_) => return Err(Fault::StoreFault),
    };
    let count = read.min(rest);
    match store.append(to, &block.bytes[..count as usize]) {
        Ok(()) => Ok(count),
        Err(refusal) => Err(Fault::of_store(refusal)),
    }
}

/// Makes a part of one base as it is under another, a block at a time.
pub(crate) fn copy_part<S: Store>(
    store: &mut S,
    bases: &Bases<'_>,
    part: Part,
    block: &mut Block,
) -> Result<(), Fault>
    requires { part ≢ Plain }
    ensures copied { IsSome (S.files store.old) →
        OnOk result (IsCopied bases.now.name.now bases.now.new.now (S.files store.old)
        (S.files store.new) part) }
    ensures writes { WritesFile (full_name bases.now.new.now part) (IsSome (S.files store.old))
        result S.Store store.old store.new }
{
    let from = FileRef {
        base: bases.name,
        part,
    };
    let to = FileRef {
        base: bases.new,
        part,
    };
    let size = match store.size(&from) {
        Ok(size) => size.unwrap_or(0),
        Err(_) => return Err(Fault::StoreFault),
    };
    match empty_part(store, bases.new, part) {
        Ok(()) => {}
        Err(refusal) => return Err(refusal),
    }
    let mut at = 0;
    while at < size {
        let count = match copy_block(store, &from, &to, at, size - at, block) {
            Ok(count) => count,
            Err(refusal) => return Err(refusal),
        };
        if count == 0 {
            return Err(Fault::Damaged(Bad {
                part,
                at: 0,
                low: size,
                high: size,
                found: at,
            }));
        }
        at += count;
    }
    Ok(())
}
