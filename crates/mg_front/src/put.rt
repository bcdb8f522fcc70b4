//! How an entry is written.
ghost use Rattle.std.specs.Prelude.{◌≡◌, ◌≤◌, ◌<◌, ◌+◌, ◌-◌, ◌++◌, ◌∷◌, ◌%◌, ◌^◌, ◌==◌, if◌then◌else◌, [], IfOk, length};
ghost use Rattle.mg_dev.specs.Moments.{Between};
ghost use Rattle.mg_defs.specs.Numbers.{four};
ghost use Rattle.mg_defs.specs.Front.{shared};
ghost use Rattle.mg_front.specs.Fronting.{Puts, PutsPlaces};
ghost use Rattle.mg_front.specs.Entries.{cut_bytes, coded_entry};

use mg_bits::PageWriter;
use mg_dev::{PutErr, Store};
use mg_fields::four_bytes;

/// How many bytes two strings share at their front: the length of their longest common prefix.
#[tactic(auto, unfolding(mg_defs::specs::Front::shared))]
pub fn shared(before: &[u8], string: &[u8]) -> usize
    ensures value { result ≡ shared before.now string.now }
    ensures before { result ≤ length before.now }
    ensures string { result ≤ length string.now }
{
    match string {
        [] => 0,
        [y, ys @ ..] => match before {
            [] => 0,
            [x, xs @ ..] => { if x == y { shared(xs, ys) + 1 } else { 0 } }
        },
    }
}

/// Writes a whole entry.
fn put_whole<S: Store>(
    strings: &mut PageWriter<'_>,
    store: &mut S,
    string: &[u8],
    field: &[u8],
) -> Result<(), PutErr>
    requires { length string.now ≤ 255 }
    ensures { Between S.files S.reads S.faults store.old store.new
        (Puts strings.old strings.new (length string.now ∷ (string.now ++ field.now)) result) }
{
    match strings.put(store, string.len() as u8) {
        Ok(()) => {}
        Err(refusal) => return Err(refusal),
    }
    match strings.put_all(store, string) {
        Ok(()) => {}
        Err(refusal) => return Err(refusal),
    }
    strings.put_all(store, field)
}

/// Writes an entry that is not whole.
fn put_cut<S: Store>(
    strings: &mut PageWriter<'_>,
    store: &mut S,
    from: usize,
    string: &[u8],
    field: &[u8],
) -> Result<(), PutErr>
    requires short { length string.now ≤ 255 }
    requires within { from ≤ length string.now }
    ensures { Between S.files S.reads S.faults store.old store.new
        (Puts strings.old strings.new (cut_bytes from string.now field.now) result) }
{
    let more = &string[from..];
    match strings.put(store, from as u8) {
        Ok(()) => {}
        Err(refusal) => return Err(refusal),
    }
    put_whole(strings, store, more, field)
}

/// Writes the entry of a number, after the string before.
pub fn put_entry<S: Store>(
    strings: &mut PageWriter<'_>,
    store: &mut S,
    number: u32,
    before: &[u8],
    string: &[u8],
    field: &[u8],
) -> Result<u64, PutErr>
    requires short { length string.now ≤ 255 }
    requires field { length field.now ≤ 24 }
    ensures put { Between S.files S.reads S.faults store.old store.new
        (Puts strings.old strings.new (coded_entry number before.now string.now field.now)
        result) }
    ensures size { IfOk result (λ size.
        size ≡ length (coded_entry number before.now string.now field.now)) }
    ensures most { IfOk result (λ size. size ≤ 281) }
{
    if number % 4 == 0 {
        return match put_whole(strings, store, string, field) {
            Ok(()) => Ok((string.len() + field.len()) as u64 + 1),
            Err(refusal) => Err(refusal),
        };
    }
    let from = shared(before, string);
    match put_cut(strings, store, from, string, field) {
        Ok(()) => Ok((string.len() - from + field.len()) as u64 + 2),
        Err(refusal) => Err(refusal),
    }
}

/// Writes the place of a whole entry, where places are written.
pub fn put_place<S: Store>(
    places: &mut Option<PageWriter<'_>>,
    store: &mut S,
    number: u32,
    place: u64,
) -> Result<(), PutErr>
    requires place { place < 2 ^ 32 }
    ensures { Between S.files S.reads S.faults store.old store.new
        (PutsPlaces places.old places.new (if number % 4 == 0 then four place else []) result) }
{
    if number % 4 == 0 {
        if let Some(writer) = places {
            return writer.put_all(store, &four_bytes(place as u32));
        }
    }
    Ok(())
}
