//! Bytes of a file, through pages.
ghost use Rattle.std.specs.Prelude.{◌≡◌, ◌+◌, ◌*◌, Option, IfOk, IfSome, IsSome, OnSome, slice_get};
ghost use Rattle.mg_dev.specs.Files.{Files};
ghost use Rattle.mg_dev.specs.Causes.{HasCause};
ghost use Rattle.mg_defs.specs.Bits.{Begins, digits};
ghost use Rattle.mg_bits.specs.Feed.{Device, Feeding, IsPageLength, Calm, HasBits, HoldsBits, ReadsWithin, page_of, ToldBytes, KeepsPage, ToldBits};

use mg_dev::Failed;

/// The bytes of one file of a device, by their places. A feed keeps a page of them, and its calls
/// take the device that they read from.
pub trait Feed {
    /// What it reads from.
    type Dev;

    /// What contracts see of the device.
    ghost device: { Self.Dev → Device };

    /// What contracts see of the feed.
    ghost feeding: { Self → Feeding };

    /// The page that is held agrees with what the device holds.
    ghost fits: { Self → Option Files → Type 0 };

    /// The byte at a place, or None at and past the end.
    fn byte(&mut self, dev: &mut Self::Dev, at: u64) -> Result<Option<u8>, Failed>
        requires { fits self.old (device dev.old).files }
        ensures fits { fits self.new (device dev.new).files }
        ensures told { IfSome ((feeding self.old).source (device dev.old).files)
            (λ bytes. IfOk result (λ byte. byte ≡ slice_get bytes at)) }
        ensures calm { Calm (feeding self.old) (feeding self.new) (device dev.old)
            (device dev.new) }
        ensures pages { ReadsWithin (feeding self.old) (feeding self.new) (device dev.old)
            (device dev.new) (8 * at) (8 * at + 1) }
        ensures held { IfOk result (λ byte.
            OnSome byte ((feeding self.new).held
            ≡ Some (page_of (feeding self.old).page (8 * at)))) }
        ensures keeps { KeepsPage (feeding self.old) (feeding self.new) (8 * at) }
        ensures cause { HasCause (device dev.old).faults (device dev.new).faults result };

    /// The byte at a place, where the page that is held has it, and None elsewhere. The device is not
    /// asked.
    fn held_byte(&self, at: u64) -> Option<u8>
        ensures told { ToldBytes (feeding self.now) (fits self.now) result
            (λ byte bytes. Some byte ≡ slice_get bytes at) }
        ensures held { OnSome result ((feeding self.now).held
            ≡ Some (page_of (feeding self.now).page (8 * at))) }
        ensures some { (files : Option Files) → fits self.now files →
            HasBits (feeding self.now) files (8 * at) 8 → IsSome result };

    /// The eight bytes from a place on as a number, the first of them highest, where the page that
    /// is held has them all, and None elsewhere. The device is not asked.
    fn word(&self, at: u64) -> Option<u64>
        ensures told { ToldBits (feeding self.now) (fits self.now) (8 * at) result
            (λ word. Begins (digits 64 word)) }
        ensures held { IfSome result (λ word. HoldsBits (feeding self.now) (8 * at) 64) }
        ensures some { (files : Option Files) → fits self.now files →
            HasBits (feeding self.now) files (8 * at) 64 → IsSome result };

    /// A page is a number of times 64 bytes.
    ghost whole_pages: { (feed : Self) → IsPageLength (feeding feed).page };

    /// A feed agrees with each device that holds the same bytes for it: only the bytes that it
    /// reads count for that.
    ghost fits_source: { (feed : Self) (f g : Option Files) → (feeding feed).source f ≡ (feeding feed).source g → fits feed f → fits feed g };
}
