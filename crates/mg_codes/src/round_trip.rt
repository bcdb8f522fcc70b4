//! Codes that were written are read.
ghost use Rattle.std.specs.Prelude.{◌≡◌, ℕ, ◌^◌, ◌<◌, ◌≤◌};
ghost use Rattle.mg_defs.specs.Bits.{Bits};
ghost use Rattle.mg_defs.specs.Codes.{unary, gamma, short, golomb};
ghost use Rattle.mg_defs.specs.Answers.{Answer, UpTo, Below, value};
ghost use Rattle.mg_codes.specs.RoundTrips.{AnswersFirst};

/// What was put is got, whatever follows: where the code of a number stands first, the one answer
/// of its reader is that number.
pub fn what_was_put_is_got()
    ensures unary { (limit x : ℕ) (more : Bits) (a : Answer) → UpTo limit x →
        AnswersFirst (UpTo limit) unary x more a → a ≡ value x }
    ensures gamma { (limit x : ℕ) (more : Bits) (a : Answer) → limit < 2 ^ 64 → UpTo limit x →
        AnswersFirst (UpTo limit) gamma x more a → a ≡ value x }
    ensures short { (b r : ℕ) (more : Bits) (a : Answer) → b ≤ 2 ^ 64 → r < b →
        AnswersFirst (Below b) (short b) r more a → a ≡ value r }
    ensures golomb { (b limit x : ℕ) (more : Bits) (a : Answer) → 1 ≤ b → b ≤ 2 ^ 64 →
        UpTo limit x → AnswersFirst (UpTo limit) (golomb b) x more a → a ≡ value x }
{}
