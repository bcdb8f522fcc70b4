//! Laws of the codes and of the pages on which bits lie.
ghost use Rattle.std.specs.Prelude.{◌↔◌, ℕ, ◌-◌, ◌^◌, ◌<◌, ◌≤◌};
ghost use Rattle.mg_defs.specs.Bits.{Bits};
ghost use Rattle.mg_defs.specs.Codes.{unary, gamma, short, golomb};
ghost use Rattle.mg_defs.specs.Answers.{Answer, OneAnswer, UpTo, Below, IsPrefixFree};
ghost use Rattle.mg_defs.specs.PagesOf.{page_at, HasBit};

/// Where a code stands at the front of a code of its kind, the two are codes of one number: none
/// is a proper front of another.
pub fn no_code_is_a_front()
    ensures unary { (limit : ℕ) → IsPrefixFree (UpTo limit) unary }
    ensures gamma { (limit : ℕ) → limit < 2 ^ 64 → IsPrefixFree (UpTo limit) gamma }
    ensures short { (b : ℕ) → 1 ≤ b → b ≤ 2 ^ 64 → IsPrefixFree (Below b) (short b) }
    ensures golomb { (b limit : ℕ) → 1 ≤ b → b ≤ 2 ^ 64 → IsPrefixFree (UpTo limit) (golomb b) }
{}

/// A reader of such a code has at most one answer.
pub fn one_answer()
    ensures unary { (limit : ℕ) (bits : Bits) (a b : Answer) →
        OneAnswer (UpTo limit) unary bits a b }
    ensures gamma { (limit : ℕ) (bits : Bits) (a b : Answer) → limit < 2 ^ 64 →
        OneAnswer (UpTo limit) gamma bits a b }
    ensures short { (p : ℕ) (bits : Bits) (a b : Answer) → 1 ≤ p → p ≤ 2 ^ 64 →
        OneAnswer (Below p) (short p) bits a b }
    ensures golomb { (p limit : ℕ) (bits : Bits) (a b : Answer) → 1 ≤ p → p ≤ 2 ^ 64 →
        OneAnswer (UpTo limit) (golomb p) bits a b }
{}

/// The pages with a bit of a range go from the page of its first bit to that of its last.
pub fn pages_of_a_range()
    ensures { (from to page : ℕ) → HasBit from to page ↔
        ((from < to) × (page_at from ≤ page) × (page ≤ page_at (to - 1))) }
{}
