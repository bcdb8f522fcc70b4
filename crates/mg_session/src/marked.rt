//! The places of a phrase among words that are told by their symbols.
ghost use Rattle.std.specs.Prelude.{◌≡◌, ◌<◌, ℕ, List, length};
ghost use Rattle.mg_defs.specs.Phrases.{phrase_places};
ghost use Rattle.mg_phrase.specs.Marks.{MarksFit, mark_of};
ghost use Rattle.mg_session.specs.DocStands.{places_in_words};
ghost use Rattle.mg_session.specs.PhraseMarks.{AreWords, MarksWord};
ghost use Rattle.mg_text.specs.Listing.{AreOfWords, AreWordsOf};

use mg_model::{Stream, TextModel};
use mg_phrase::{Marks, PhraseCount};

/// The mark of the word of a symbol, which is looked up at the first meeting.
#[inline]
fn mark_at(model: &TextModel, marks: &mut Marks<'_>, symbol: u32) -> u8
    requires of_word { symbol < length model.now.words.pieces }
    requires fit { MarksFit model.now.words.pieces marks.old }
    ensures { MarksWord model.now.words.pieces symbol result marks.old marks.new }
{
    match marks.known(symbol) {
        Some(mark) => mark,
        None => marks.learn(symbol, model.piece(Stream::Words, symbol)),
    }
}

/// In how many places the phrase of the marks stands among the words of these symbols.
pub(crate) fn places_by(model: &TextModel, marks: &mut Marks<'_>, symbols: &[u32]) -> u64
    requires of_words { AreOfWords model.now symbols.now }
    requires fit { MarksFit model.now.words.pieces marks.old }
    ensures fit { MarksFit model.now.words.pieces marks.new }
    ensures phrase { marks.new.phrase ≡ marks.old.phrase }
    // Whatever the words are, it is what one pass over them counts.
    ensures counted { (words : List (List ℕ)) → AreWords model.now symbols.now words →
        result ≡ places_in_words marks.old.phrase words }
    ensures places { (doc : List ℕ) → AreWordsOf model.now symbols.now doc →
        result ≡ phrase_places marks.old.phrase doc }
{
    let mut count = PhraseCount::new(marks.phrase());
    for symbol in symbols {
        count.take(mark_at(model, marks, *symbol));
    }
    count.places()
}
