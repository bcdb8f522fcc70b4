//! A feed over bytes in memory.
ghost use Rattle.std.specs.Prelude.{◌≡◌, Option};
ghost use Rattle.std.proofs.Common.{rules};
ghost use Rattle.mg_dev.specs.Files.{Files};
ghost use Rattle.mg_bits.specs.Feed.{no_device, over_slice};

use crate::Feed;
use crate::window::word_in;
use mg_dev::Failed;

/// The device of a feed that reads no device.
#[derive(Clone, Copy, Debug)]
pub struct NoDev;

/// A feed over bytes in memory. It never fails, and its one page of 2^63 bytes is always held.
#[derive(Clone, Copy)]
pub struct SliceFeed<'a> {
    bytes: &'a [u8],
}

impl<'a> SliceFeed<'a> {
    /// A feed over these bytes.
    pub fn new(bytes: &'a [u8]) -> Self
        ensures feeding { ⟦<SliceFeed<'a> as Feed>⟧.feeding result ≡ over_slice bytes.now }
        ensures fits { (files : Option Files) → ⟦<SliceFeed<'a> as Feed>⟧.fits result files }
    {
        SliceFeed { bytes }
    }
}

impl<'a> Feed for SliceFeed<'a> {
    type Dev = NoDev;

    ghost device = { λ d. no_device };

    ghost feeding = { λ s. over_slice s.bytes.now };

    ghost fits = { λ s f. Unit {0} };

    fn byte(&mut self, _dev: &mut NoDev, at: u64) -> Result<Option<u8>, Failed> {
        Ok(self.bytes.get(at as usize).copied())
    }

    #[inline]
    fn held_byte(&self, at: u64) -> Option<u8> {
        self.bytes.get(at as usize).copied()
    }

    #[inline]
    fn word(&self, at: u64) -> Option<u64> {
        word_in(self.bytes, at as usize)
    }

    ghost whole_pages = { λ s. Prim.search rules };

    ghost fits_source = { λ s f g same fit. fit };
}
