//! Laws of heads.
ghost use Rattle.std.specs.Prelude.{◌≡◌, ◌≤◌, ℕ, List};
ghost use Rattle.mg_defs.specs.Heads.{HasNoDamage, Head, IsHead, IsOfBytes, IsWithin, head_bytes, read_head};

/// The bytes of a head are those of no other.
pub fn one_head()
    ensures { (a b : Head) → IsWithin a → IsWithin b → head_bytes a ≡ head_bytes b → a ≡ b }
{}

/// Bytes have no damage exactly where they are a head.
pub fn damage_decides()
    ensures none { (low high : ℕ) (bytes : List ℕ) (h : Head) → IsHead low high bytes h →
        HasNoDamage low high bytes }
    ensures head { (low high : ℕ) (bytes : List ℕ) → 1 ≤ low → high ≤ 2 → IsOfBytes bytes →
        HasNoDamage low high bytes →
        IsHead low high bytes (read_head bytes) }
{}
