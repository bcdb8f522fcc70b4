//! Laws of front coding.
ghost use Rattle.std.specs.Prelude.{◌≡◌, ◌≢◌, ◌+◌, ◌*◌, ◌/◌, ◌<◌, ◌≤◌, ◌↔◌, ℕ, List, [], length, take, drop, slice_get, Some, None, true};
ghost use Rattle.mg_defs.specs.Front.{AreEntries, Entry, Found, IsEntry, IsFront, IsReadBack, NoEntry, StandsFirst, WhereInOrder};
ghost use Rattle.mg_defs.specs.Front.{front, is_below, read_entry, shared, whole_at};
ghost use Rattle.mg_defs.specs.Numbers.{four};

/// The decoder reads what the encoder writes: an entry that stands first is read with its size,
/// what is read stands first, and nothing is read exactly where no entry stands first.
pub fn entries_are_read()
    ensures written { (width i : ℕ) (before : List ℕ) (e : Entry) (rest : List ℕ) →
        IsEntry width i before e →
        IsReadBack width i before e rest }
    ensures read { (width i : ℕ) (before bytes : List ℕ) (it : Found) →
        read_entry width i before bytes ≡ Some it → StandsFirst width i before bytes it }
    ensures none { (width i : ℕ) (before bytes : List ℕ) →
        (read_entry width i before bytes ≡ None) ↔ NoEntry width i before bytes }
{}

/// The bytes of a part determine its entries.
pub fn one_front()
    ensures { (width : ℕ) (bytes : List ℕ) (es fs : List Entry) → IsFront width bytes es →
        IsFront width bytes fs → es ≡ fs }
{}

/// The strings of entries rise, so that each stands once.
pub fn strings_rise()
    ensures { (width : ℕ) (es : List Entry) (j k : ℕ) (d e : Entry) → AreEntries width 0 [] es →
        WhereInOrder es j k d e (is_below d.string e.string ≡ true) }
{}

/// What two strings share is the length of their longest common front: they are the same up to it, it is
/// within both, and where both go on behind it, they differ there.
pub fn longest_shared()
    ensures same { (xs ys : List ℕ) → take (shared xs ys) xs ≡ take (shared xs ys) ys }
    ensures first { (xs ys : List ℕ) → shared xs ys ≤ length xs }
    ensures second { (xs ys : List ℕ) → shared xs ys ≤ length ys }
    ensures differ { (xs ys : List ℕ) (x y : ℕ) → slice_get xs (shared xs ys) ≡ Some x →
        slice_get ys (shared xs ys) ≡ Some y → x ≢ y }
{}

/// Every fourth entry, from the first on, has a place: the number of bytes of the entries before it, in
/// four bytes. A part begins with the bytes of its first entries, however many, so that they end there.
pub fn whole_entries_have_places()
    ensures size { (es : List Entry) → length (whole_at es) ≡ 4 * ((length es + 3) / 4) }
    ensures place { (es : List Entry) (block : ℕ) → 4 * block < length es →
        take 4 (drop (4 * block) (whole_at es)) ≡ four (length (front (take (4 * block) es))) }
    ensures begins { (es : List Entry) (j : ℕ) → take (length (front (take j es))) (front es)
        ≡ front (take j es) }
{}
