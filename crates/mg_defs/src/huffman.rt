//! Laws of code lengths and canonical codewords.
ghost use Rattle.std.specs.Prelude.{◌≡◌, ℕ, ◌-◌, ◌*◌, ◌^◌, ◌<◌, ◌≤◌, List, length, slice_index};
ghost use Rattle.std.specs.List.Sorted.{IsPermutation};
ghost use Rattle.mg_defs.specs.Answers.{Below, IsPrefixFree};
ghost use Rattle.mg_defs.specs.Canon.{AreGood, longer, first_codeword, codeword};
ghost use Rattle.mg_defs.specs.Cost.{huffman_cost};

/// No codeword of good lengths is the front of another, and each has as many bits as its length
/// says.
pub fn no_codeword_is_a_front()
    ensures prefix_free { (lengths : List ℕ) → AreGood lengths →
        IsPrefixFree (Below (length lengths)) (codeword lengths) }
    ensures bits { (lengths : List ℕ) (symbol : ℕ) → AreGood lengths → symbol < length lengths →
        length (codeword lengths symbol) ≡ slice_index lengths symbol }
{}

/// The division that gives the first codeword of a length leaves nothing over.
pub fn first_is_exact()
    ensures { (lengths : List ℕ) (l : ℕ) → AreGood lengths → 2 ≤ length lengths → l ≤ 48 →
        first_codeword l lengths * 2 ^ (48 - l) ≡ longer l lengths }
{}

/// The order of the counts changes nothing of Huffman's cost.
pub fn cost_in_any_order()
    ensures { (counts others : List ℕ) → IsPermutation counts others →
        huffman_cost others ≡ huffman_cost counts }
{}
