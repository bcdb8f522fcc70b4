//! The law of the bits of a block.
ghost use Rattle.std.specs.Prelude.{◌≡◌, ℕ, List};
ghost use Rattle.mg_defs.specs.declared.Posting.{Posting};
ghost use Rattle.mg_defs.specs.Bits.{Bits};
ghost use Rattle.mg_defs.specs.Lists.{WhereBlockBegins, WhereListBegins, block_of};

/// What stands at a block's first bit, read from the last document before it, is exactly the
/// block's postings: no other list of as many rising postings has bits that stand there.
pub fn one_block()
    ensures { (b all : ℕ) (ps qs : List Posting) (k : ℕ) (bits : Bits) →
        WhereListBegins b all ps bits
        (WhereBlockBegins b all k ps qs bits (qs ≡ block_of k ps)) }
{}
