//! Laws of bytes, of what was written, and of pages that are held.
ghost use Rattle.std.specs.Prelude.{◌≡◌, ℕ, List, Option};
ghost use Rattle.mg_dev.specs.Files.{Files};
ghost use Rattle.mg_defs.specs.Bits.{Bits, bits_of, as_bytes};
ghost use Rattle.mg_bits.specs.Pages.{Fits, Paging};
ghost use Rattle.mg_bits.specs.Writer.{AreBytes};
ghost use Rattle.mg_bits.specs.BitWriting.{BitWriting, Holds, bits_put};
ghost use Rattle.mg_bits.specs.Alike.{SameAt, TellAlike};

/// Bytes of the same bits are the same, and bytes are those that their bits make.
pub fn bits_tell_bytes()
    ensures same { (a b : List ℕ) → AreBytes a → AreBytes b → bits_of a ≡ bits_of b → a ≡ b }
    ensures made { (bytes : List ℕ) → AreBytes bytes → as_bytes (bits_of bytes) ≡ bytes }
    ensures bytes { (bits : Bits) → AreBytes (as_bytes bits) }
{}

/// What was written to a file stays, and its writer may write on, where that file stays: calls that
/// write other files don't matter.
pub fn written_bits_stay()
    ensures bits { (w : BitWriting) (f g : Option Files) → SameAt f g w.name →
        bits_put w g ≡ bits_put w f }
    ensures holds { (w : BitWriting) (f g : Option Files) → TellAlike f g → SameAt f g w.name →
        Holds w f → Holds w g }
{}

/// The page that a feed holds is one of its file as long as that file stays: calls that write other
/// files don't matter.
pub fn held_pages_stay()
    ensures { (feed : Paging) (f g : Option Files) → TellAlike f g → SameAt f g feed.name →
        Fits feed f → Fits feed g }
{}
