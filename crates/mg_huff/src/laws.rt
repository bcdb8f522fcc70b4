//! What is so of codes whether memory lacks or not.
ghost use Rattle.std.specs.Prelude.{◌≤◌, ◌<◌, ◌^◌, ℕ, List, sum};
ghost use Rattle.std.specs.List.{All};
ghost use Rattle.mg_defs.specs.CodedText.{IsHuffman};

/// Counts of at least 1, whose sum is below 2^32, have the lengths of a code of Huffman's cost.
pub fn counts_have_codes()
    ensures { (counts : List ℕ) → All (λ c. 1 ≤ c) counts → sum counts < 2 ^ 32 →
        (lengths : List ℕ) × IsHuffman counts lengths }
{}
