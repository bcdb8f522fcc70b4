//! Documents in which phrases are sought.
//!
//! What answers a phrase takes whatever seeks it in documents: it sees no more of it than this trait tells.
ghost use Rattle.mg_dev.specs.Moments.{store_at};
ghost use Rattle.mg_session.specs.Calls.{IsShowable};
ghost use Rattle.mg_session.specs.PhraseTexts.{AreMarksOf, FindsPlaces};
ghost use Rattle.mg_session.specs.Texts.{Texting};

use mg_dev::{PartErr, Store};
use mg_phrase::Marks;

/// The documents of a set, in any of which a phrase can be sought.
pub(crate) trait Searched<S: Store> {
    /// What contracts see of them.
    ghost texts: { Self → Texting };

    /// How many places a phrase has in a document, from 1 to the number of documents. The marks are for
    /// this phrase and these documents. A document of more bytes than the head tells of the collection is
    /// refused as damaged.
    fn places(&mut self, store: &mut S, marks: &mut Marks<'_>, number: u32) -> Result<u64, PartErr>
        requires showable { IsShowable (S.files store.old) (texts self.old) number }
        requires marked { AreMarksOf (texts self.old).reader marks.old }
        ensures { FindsPlaces number result (texts self.old) (texts self.new) marks.old marks.new
            (store_at S.files S.reads S.faults store.old)
            (store_at S.files S.reads S.faults store.new) };
}
