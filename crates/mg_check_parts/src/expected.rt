//! Parts against bytes that were written anew into a store in memory.
ghost use Rattle.std.specs.Prelude.{◌≡◌, ◌≤◌, ◌+◌, ◌^◌, IfErr, IfOk, OnOk, IsSome, length, true};
ghost use Rattle.mg_dev.specs.Files.{bytes_at, file_bytes};
ghost use Rattle.mg_dev.specs.Moments.{Between};
ghost use Rattle.mg_layout.specs.Contents.{StandAt};
ghost use Rattle.mg_check_parts.specs.Refusals.{Refutes};
ghost use Rattle.mg_check_parts.specs.Looks.{LooksAtSet, is_of_set};

use mg_dev::{FileRef, PartErr, Store};
use mg_layout::{expect_bytes, expect_size};
use mg_mem::SureStore;

/// No byte of a part has a place behind this one.
const LAST_PLACE: u64 = 1 << 63;

/// The bytes of a file of a store in memory; a missing one has none.
pub fn wanted<'s>(store: &'s SureStore, name: &str) -> &'s [u8]
    ensures { result.now ≡ bytes_at (⟦<SureStore as Store>⟧.files store.now) name.now }
{
    store.file(name).unwrap_or(&[])
}

/// Sees that bytes stand in a part from a place on, and answers the place behind them.
pub fn expect_more<S: Store>(
    store: &mut S,
    file: FileRef<'_>,
    at: u64,
    wanted: &[u8],
) -> Result<u64, PartErr>
    requires of_set { is_of_set file.part ≡ true }
    requires place { at ≤ 2 ^ 63 }
    ensures end { IfOk result (λ end. end ≡ at + length wanted.now) }
    ensures within { IfOk result (λ end. end ≤ 2 ^ 63) }
    ensures stand { IsSome (S.files store.old) →
        OnOk result (StandAt at wanted.now (file_bytes file.entry (S.files store.old))) }
    ensures other { IsSome (S.files store.old) →
        IfErr result (Refutes (StandAt at wanted.now (file_bytes file.entry (S.files store.old)))) }
    ensures looks { Between S.files S.reads S.faults store.old store.new (LooksAtSet result) }
{
    let count = wanted.len() as u64;
    // Behind such a place nothing can be compared; so much is never held in memory.
    if count > LAST_PLACE - at {
        return Err(PartErr::Memory);
    }
    match expect_bytes(store, file, at, wanted) {
        Ok(()) => Ok(at + count),
        Err(refusal) => Err(refusal),
    }
}

/// Sees that a part has these bytes and no others.
pub fn expect_whole<S: Store>(
    store: &mut S,
    file: FileRef<'_>,
    wanted: &[u8],
) -> Result<(), PartErr>
    requires { is_of_set file.part ≡ true }
    ensures stand { IsSome (S.files store.old) →
        OnOk result (file_bytes file.entry (S.files store.old) ≡ wanted.now) }
    ensures other { IsSome (S.files store.old) →
        IfErr result (Refutes (file_bytes file.entry (S.files store.old) ≡ wanted.now)) }
    ensures looks { Between S.files S.reads S.faults store.old store.new (LooksAtSet result) }
{
    let end = match expect_more(store, file, 0, wanted) {
        Ok(end) => end,
        Err(refusal) => return Err(refusal),
    };
    expect_size(store, file, end)
}
