//! Where a phrase has begun, from one word of a document to the next.
ghost use Rattle.std.specs.Prelude.{◌≡◌, ◌≤◌, ◌<◌, ◌∷◌, length};
ghost use Rattle.mg_defs.specs.OnePass.{carry_on as carry_on_spec, complete};
ghost use Rattle.mg_defs.specs.Phrases.{one_if};
ghost use Rattle.mg_defs.specs.Terms.{folded};
ghost use Rattle.mg_phrase.specs.Flags.{to_come};

use mg_parse::is_term;
use mg_query::Term;

/// The most words of a phrase.
pub(crate) const MOST_WORDS: usize = 64;

/// Goes on by a word of the document: `begun[i]` then says whether the phrase's first i + 1 words end
/// with it. Whether all of them do.
#[inline]
pub(crate) fn carry_on(begun: &mut [bool; MOST_WORDS], phrase: &[Term], word: &[u8]) -> bool
    requires some { 0 < length phrase.now }
    requires few { length phrase.now ≤ 64 }
    ensures carried { to_come phrase.now begun.new ≡ carry_on_spec (folded word.now)
        (phrase.now ∷ to_come phrase.now begun.old) }
    ensures complete { one_if result ≡ complete (to_come phrase.now begun.new) }
{
    // The phrase may begin at each word.
    let mut before = true;
    for (i, term) in phrase.iter().enumerate() {
        let goes_on = before && is_term(word, term.as_bytes());
        before = begun[i];
        begun[i] = goes_on;
    }
    begun[phrase.len() - 1]
}
