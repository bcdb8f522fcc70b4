//! Words of syllables.
ghost use Rattle.std.specs.Prelude.{◌≡◌, ◌<◌, ◌≤◌, ◌+◌, ◌++◌, length};
ghost use Rattle.mg_defs.specs.Generator.{syllable as syllable_of, made_word as word_of};

use arrayvec::ArrayVec;

/// The longest word: of three syllables, each of at most three bytes.
pub(crate) const LONGEST: usize = 9;

pub(crate) type Word = ArrayVec<u8, LONGEST>;

/// The syllable of a digit in base 16.
#[tactic(auto, unfolding(mg_defs::specs::Generator::syllable))]
fn syllable(digit: u32) -> &'static [u8]
    requires { digit < 16 }
    ensures is { result.now ≡ syllable_of digit }
    ensures short { length result.now ≤ 3 }
{
    match digit {
        0 => b"ba",
        1 => b"ce",
        2 => b"di",
        3 => b"fo",
        4 => b"gu",
        5 => b"ha",
        6 => b"je",
        7 => b"ki",
        8 => b"lo",
        9 => b"mu",
        10 => b"na",
        11 => b"pe",
        12 => b"ri",
        13 => b"so",
        14 => b"tu",
        _ => b"v\xc3\xa9",
    }
}

/// Adds a syllable to a word that has room for it.
fn add(word: &mut Word, syllable: &[u8])
    requires { length word.old.items + length syllable.now ≤ 9 }
    ensures { word.new.items ≡ word.old.items ++ syllable.now }
{
    let _ = word.try_extend_from_slice(syllable);
}

/// The word of a number with at most three digits in base 16: their syllables, of at least two.
pub(crate) fn word(number: u32) -> Word
    requires { number < 4096 }
    ensures { result.items ≡ word_of number }
{
    let mut word = Word::new();
    if number >= 256 {
        add(&mut word, syllable(number / 256));
    }
    add(&mut word, syllable(number / 16 % 16));
    add(&mut word, syllable(number % 16));
    word
}
