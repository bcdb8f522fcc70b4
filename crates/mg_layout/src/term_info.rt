//! What the lexicon tells of a term.
ghost use Rattle.std.specs.Prelude.{◌≡◌};
ghost use Rattle.mg_defs.specs.Lexicon.{info_bytes};
ghost use Rattle.mg_layout.specs.Infos.{info_of};

use mg_fields::{eight_at, eight_bytes, four_at, four_bytes};

/// What the lexicon tells of a term: its number, and where its inverted list stands.
///
/// The lexicon keeps all but the number, which is that of the term's entry, in a field of sixteen
/// bytes.
#[derive(Clone, Copy, Debug, PartialEq, Eq)]
pub struct TermInfo {
    pub number: u32,
    /// How many documents have the term.
    pub docs: u32,
    /// The byte of Post where its list begins.
    pub post_at: u64,
    /// The number of its first skip entry.
    pub skip_at: u32,
}

#[tactic(auto, unfolding(mg_defs::specs::Numbers::four, mg_defs::specs::Numbers::eight))]
impl TermInfo {
    /// The bytes of its field.
    pub fn field(&self) -> [u8; 16]
        ensures { result ≡ info_bytes (info_of self.now) }
    {
        let mut field = [0u8; 16];
        field[..4].copy_from_slice(&four_bytes(self.docs));
        field[4..12].copy_from_slice(&eight_bytes(self.post_at));
        field[12..].copy_from_slice(&four_bytes(self.skip_at));
        field
    }

    /// What a field tells of the term of this number.
    pub fn of_field(number: u32, field: &[u8; 16]) -> Self
        ensures number { result.number ≡ number }
        ensures field { info_bytes (info_of result) ≡ field.now }
    {
        TermInfo {
            number,
            docs: four_at(field, 0),
            post_at: eight_at(field, 4),
            skip_at: four_at(field, 12),
        }
    }
}
