//! A term of a query.
ghost use Rattle.std.specs.Prelude.{◌≡◌, IfOk};
ghost use Rattle.mg_defs.specs.Terms.{folded, same_term};

use smallvec::SmallVec;
use std::alloc::{AllocError, Global};
use std::default::MadeWith;
use std::marker::Model;

/// A word with A to Z folded to a to z, as the lexicon has it.
///
/// Short terms lie in the value itself: only one of more than 16 bytes takes memory. Contracts
/// see a term as the list of its bytes.
#[derive(Debug, Drop)]
pub struct Term {
    bytes: SmallVec<u8, 16>,
}

impl Model for Term {
    ghost use Rattle.std.specs.Prelude.{List, ℕ};

    ghost Value = { List ℕ };

    ghost view = { λ t. t.bytes.items };
}

// What an unused place of a small vector of terms holds.
impl MadeWith<Global> for Term {
    fn made_with(alloc: Global) -> Term {
        Term {
            bytes: SmallVec::new(alloc),
        }
    }
}

impl Term {
    /// The term of a word. One of more than 16 bytes takes memory.
    ///
    /// # Errors
    ///
    /// Want of memory.
    pub fn of_word(alloc: Global, word: &[u8]) -> Result<Term, AllocError>
        ensures { IfOk result (λ t. t ≡ folded word.now) }
    {
        let mut bytes = SmallVec::new(alloc);
        bytes.reserve(word.len())?;
        for byte in word {
            bytes.push(byte.to_ascii_lowercase())?;
        }
        Ok(Term { bytes })
    }

    /// A copy.
    pub(crate) fn copied(&self, alloc: Global) -> Result<Term, AllocError>
        ensures { IfOk result (λ t. t ≡ self.now) }
    {
        let bytes = SmallVec::from_slice(alloc, self.bytes.as_slice())?;
        Ok(Term { bytes })
    }

    /// Whether both have the same bytes.
    #[tactic(auto, using(crate::proofs::TermLaws::same_bytes))]
    pub(crate) fn is_same(&self, other: &Term) -> bool
        ensures { result ≡ same_term self.now other.now }
    {
        self.as_bytes() == other.as_bytes()
    }

    /// The folded bytes.
    pub fn as_bytes(&self) -> &[u8]
        ensures { result.now ≡ self.now }
    {
        self.bytes.as_slice()
    }
}
