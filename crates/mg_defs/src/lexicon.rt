//! Laws of the lexicon.
ghost use Rattle.std.specs.Prelude.{◌≡◌, ℕ, List, [], length};
ghost use Rattle.mg_defs.specs.Front.{AreEntries, Entry};
ghost use Rattle.mg_defs.specs.Lexicon.{IsEntryAt, IsTermAt, term_entry, info_bytes, info_of, lexicon};
ghost use Rattle.mg_defs.specs.Terms.{term_count};

/// The lexicon of a collection can be front-coded: its strings rise, and its fields have sixteen
/// bytes. It has one entry for each term, at the term's number, and no other.
pub fn terms_are_entries()
    ensures entries { (collection : List ℕ) → AreEntries 16 0 [] (lexicon collection) }
    ensures count { (collection : List ℕ) → length (lexicon collection) ≡ term_count collection }
    ensures term { (collection : List ℕ) (i : ℕ) (t : List ℕ) → IsTermAt collection i t →
        IsEntryAt collection i (term_entry collection i t) }
    ensures string { (collection : List ℕ) (i : ℕ) (e : Entry) → IsEntryAt collection i e →
        IsTermAt collection i e.string }
    ensures field { (collection : List ℕ) (i : ℕ) (e : Entry) → IsEntryAt collection i e →
        e.field ≡ info_bytes (info_of collection i e.string) }
{}
