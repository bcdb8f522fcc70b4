//! Where the pieces stand that were looked up last.
//!
//! Most pieces of a text came shortly before, and a look-up in a large map waits for memory. So a small table keeps
//! places of a vocabulary's entries, each where the key of its piece tells. Nothing is promised of what it keeps: a
//! place is answered only where the entry that stands there has the key.
use crate::piece_key::PieceKey;
use std::alloc::Global;

/// How many places are kept.
const PLACES: usize = 1 << PLACE_BITS;

/// By how many bits of a mixed key it is told where its place is kept.
const PLACE_BITS: u32 = 12;

/// Places of the entries of one vocabulary. Where memory lacked for them there are none, and every
/// piece is looked up.
#[derive(Drop)]
pub(crate) struct Recent {
    places: Vec<u32>,
}

impl Recent {
    /// No piece was looked up.
    pub(crate) fn new(alloc: Global) -> Self {
        match vec![in alloc; 0; PLACES] {
            Ok(places) => Recent { places },
            Err(_) => Recent {
                places: Vec::new(alloc),
            },
        }
    }

    /// The place that is kept for a key.
    #[inline]
    pub(crate) fn place(&self, key: &PieceKey) -> u32 {
        let at = key.mixed(PLACE_BITS);
        if at < self.places.len() {
            self.places[at]
        } else {
            0
        }
    }

    /// Keeps the place that was found of a key.
    #[inline]
    pub(crate) fn keep(&mut self, key: &PieceKey, place: u32) {
        let at = key.mixed(PLACE_BITS);
        if at < self.places.len() {
            self.places[at] = place;
        }
    }
}
