//! Ranges of terms whose postings are held in memory at once.
ghost use Rattle.std.specs.Prelude.{◌<◌, ◌≤◌, ◌+◌, ◌-◌, ◌^◌, ◌↔◌, ℕ, IsTrue, length, take, drop, sum, slice_index};
ghost use Rattle.mg_check_index.specs.Listing.{AreSizes};
ghost use Rattle.mg_defs.specs.Limits.{version_2};

/// So many postings end a range.
const RANGE_POSTINGS: u32 = 1 << 26;

/// Whether there is a number of documents for each of so many terms, and each is at least 1 and at most that of all.
pub fn are_sizes(docs: &[u32], terms: u32, all: u32) -> bool
    ensures { IsTrue result ↔ AreSizes docs.now terms all }
{
    if docs.len() != terms as usize {
        return false;
    }
    for count in docs {
        if *count == 0 || *count > all {
            return false;
        }
    }
    true
}

/// The term behind a range that begins at one: the range ends once its terms have 2^26 postings together, or with the
/// last term. So what is held is fewer than these and one list.
pub fn range_end(docs: &[u32], first: u32) -> u32
    requires some { first < length docs.now }
    requires few { length docs.now ≤ version_2.pieces }
    requires each { (k : ℕ) → k < length docs.now → slice_index docs.now k ≤ version_2.documents }
    ensures after { first < result }
    ensures within { result ≤ length docs.now }
    ensures most { sum (take (result - first) (drop first docs.now)) < 2 ^ 26 + 2 ^ 24 }
{
    let mut held = 0;
    for number in first..docs.len() as u32 {
        held += docs[number as usize];
        if held >= RANGE_POSTINGS {
            return number + 1;
        }
    }
    docs.len() as u32
}
