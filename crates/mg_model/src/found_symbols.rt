//! Symbols that were found, each beside the key of its piece.
//!
//! Most pieces of a text came shortly before, and a look-up in a large map waits for memory at two places or more. Here
//! the key of a piece tells one place, and what stands there tells the symbol: a piece that came shortly before is found
//! by one read. Each symbol that is kept was found, so a look-up answers it and compares no piece.
ghost use Rattle.std.specs.Prelude.{List, ℕ, IfSome};
ghost use Rattle.mg_model.specs.Found.{AreFound, IsFound};

use crate::piece_key::PieceKey;
use std::alloc::Global;

/// How many symbols are kept.
const PLACES: usize = 1 << PLACE_BITS;

/// By how many bits of a mixed key it is told where its symbol is kept.
const PLACE_BITS: u32 = 14;

/// A symbol, and the key of its piece.
#[derive(Clone, Copy)]
struct KeptSymbol {
    key: PieceKey,
    symbol: u32,
}

/// Symbols of pieces of at most fifteen bytes, which were found among the pieces of one stream. Where memory lacked for
/// them none is kept, and every piece is looked up.
#[derive(Drop)]
pub struct FoundSymbols {
    kept: Vec<KeptSymbol>,
}

impl FoundSymbols {
    /// No symbol was found, whatever the pieces are.
    pub fn new(alloc: Global) -> Self
        ensures { (pieces : List (List ℕ)) → AreFound result pieces }
    {
        let none = KeptSymbol {
            key: PieceKey::none(),
            symbol: 0,
        };
        match vec![in alloc; none; PLACES] {
            Ok(kept) => FoundSymbols { kept },
            Err(_) => FoundSymbols {
                kept: Vec::new(alloc),
            },
        }
    }

    /// The symbol that is kept of a key.
    #[inline]
    pub(crate) fn symbol(&self, key: &PieceKey) -> Option<u32>
        ensures { (pieces : List (List ℕ)) → AreFound self.now pieces →
            IfSome result (λ symbol. IsFound pieces key.now.entry symbol) }
    {
        let at = key.mixed(PLACE_BITS);
        if at >= self.kept.len() {
            return None;
        }
        let kept = self.kept[at];
        if kept.key == *key {
            Some(kept.symbol)
        } else {
            None
        }
    }

    /// Keeps the symbol that was found of a key.
    pub(crate) fn keep(&mut self, key: &PieceKey, symbol: u32)
        ensures { (pieces : List (List ℕ)) → AreFound self.old pieces →
            IsFound pieces key.now.entry symbol → AreFound self.new pieces }
    {
        let at = key.mixed(PLACE_BITS);
        if at < self.kept.len() {
            self.kept[at] = KeptSymbol { key: *key, symbol };
        }
    }
}
