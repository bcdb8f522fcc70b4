//! Laws of inverted lists.
ghost use Rattle.std.specs.Prelude.{◌≡◌, ℕ, ◌^◌, ◌<◌, ◌≤◌, List, length};
ghost use Rattle.mg_defs.specs.declared.Posting.{Posting};
ghost use Rattle.mg_defs.specs.Bits.{Bits, Begins};
ghost use Rattle.mg_defs.specs.Lists.{BlockBegins, Rises, bits_after, block_count, block_of, last_doc, InRange, postings};
ghost use Rattle.mg_defs.specs.Split.{document_count};

/// The bits of a list's block stand at its first bit, read from the last document before it.
pub fn block_stands()
    ensures { (b : ℕ) (ps : List Posting) (k : ℕ) (bits : Bits) → Begins (bits_after b 0 ps) bits →
        BlockBegins b k ps (block_of k ps) bits }
{}

/// The range of one block holds each document up to the list's last.
pub fn one_range()
    ensures some { (ps : List Posting) (doc : ℕ) → 0 < doc → doc ≤ last_doc 0 ps →
        (k : ℕ) × (k < block_count (length ps)) × InRange k ps doc }
    ensures only { (all : ℕ) (ps : List Posting) (doc j k : ℕ) → Rises all 0 ps → InRange j ps doc →
        InRange k ps doc → j ≡ k }
{}

/// The documents of a term's list rise, and each count is at least 1.
pub fn list_rises()
    ensures { (collection t : List ℕ) → length collection < 2 ^ 32 →
        Rises (document_count collection) 0 (postings collection t) }
{}
