//! Entries as bytes.
ghost use Rattle.std.specs.Prelude.{◌≡◌, ◌≤◌, ◌<◌, ◌+◌, ◌*◌, ◌++◌, [], ◌∷◌, length};
ghost use Rattle.mg_runs.specs.Bytes.{entries_in, bytes_of, number_in};

use mg_fields::{four_at, four_bytes};

/// The 8 bytes of an entry.
pub fn entry_bytes(term: u32, doc: u32) -> [u8; 8]
    ensures { result ≡ bytes_of term doc }
{
    let [a, b, c, d] = four_bytes(term);
    let [e, f, g, h] = four_bytes(doc);
    [a, b, c, d, e, f, g, h]
}

/// The number at this place of an entry.
pub fn number_at(bytes: &[u8; 8], from: usize) -> u32
    requires { from ≤ 4 }
    ensures { result ≡ number_in from bytes.now }
{
    four_at(bytes, from)
}

/// Sets the entry after the first so many.
fn set_entry(bytes: &mut [u8], count: usize, term: u32, doc: u32)
    requires { 8 * count + 8 ≤ length bytes.old }
    ensures { entries_in (count + 1) bytes.new ≡ entries_in count bytes.old
        ++ (record { term = term; doc = doc; count = 1 }) ∷ [] }
{
    let made = entry_bytes(term, doc);
    let at = 8 * count;
    bytes[at..at + 8].copy_from_slice(&made);
}

/// The same in a `Vec`.
pub fn put_entry(bytes: &mut Vec<u8>, count: usize, term: u32, doc: u32)
    requires { 8 * count + 8 ≤ length bytes.old.items }
    ensures more { entries_in (count + 1) bytes.new.items ≡ entries_in count bytes.old.items
        ++ (record { term = term; doc = doc; count = 1 }) ∷ [] }
    ensures len { length bytes.new.items ≡ length bytes.old.items }
{
    set_entry(bytes, count, term, doc);
}
