//! Marks that are written as they are met, and the end behind the last of them.
//!
//! What passes marks on takes whatever writes them: it sees no more of it than this trait tells.
ghost use Rattle.std.specs.Prelude.{◌≡◌, ◌∷◌, []};
ghost use Rattle.mg_dev.specs.Moments.{Between};
ghost use Rattle.mg_defs.specs.Marks.{piece as piece_mark, start as start_mark, stop as stop_mark};
ghost use Rattle.mg_make.specs.Finishing.{HandsOn, TextEnd};
ghost use Rattle.mg_count.specs.Meeting.{marks_of, only_if, piece_if};
ghost use Rattle.mg_make.specs.Second.{EndRefused, EndTells, Inversion, IsNext, IsWhole};
ghost use Rattle.mg_make.specs.Steps.{PassStep, SortStep};
ghost use Rattle.mg_make.specs.Written.{OfSecond};

use crate::inverter::{Inverted, Inverter};
use mg_count::Met;
use mg_dev::{Fault, Store};
use mg_model::Piece;
use mg_parse::Stream;
use mg_runs::runs_stay;

/// Writes the marks of a collection as text, and the occurrences of its terms as runs.
pub(crate) trait MarkWriter<'a, S: Store> {
    /// What contracts see of it.
    ghost pass: { Self → Inversion };

    /// Begins a document where one begins. Refused where the plan has no more documents.
    fn begin_if(&mut self, store: &mut S, begins: bool) -> Result<(), Fault>
        requires next { IsNext (pass self.old) (S.files store.old) (only_if begins start_mark) }
        ensures { Between S.files S.reads S.faults store.old store.new
            (PassStep (pass self.old) (pass self.new) (only_if begins start_mark) result) };

    /// Writes a piece of the open document where there is one, and the occurrence of its term where it is a
    /// word that is not empty. Refused where the document has no more pairs by the plan, or the stream no such
    /// piece.
    fn piece_if(
        &mut self,
        store: &mut S,
        is_met: bool,
        stream: Stream,
        piece: &Piece<'_>,
    ) -> Result<(), Fault>
        requires next { IsNext (pass self.old) (S.files store.old)
            (piece_if is_met stream piece.now) }
        ensures { Between S.files S.reads S.faults store.old store.new
            (PassStep (pass self.old) (pass self.new) (piece_if is_met stream piece.now) result) };

    /// Ends the open document where it ends. Refused where the document has more pairs by the plan.
    fn end_if(&mut self, store: &mut S, ends: bool) -> Result<(), Fault>
        requires next { IsNext (pass self.old) (S.files store.old) (only_if ends stop_mark) }
        ensures { Between S.files S.reads S.faults store.old store.new
            (PassStep (pass self.old) (pass self.new) (only_if ends stop_mark) result) };

    /// Ends the text, and answers its size. Refused where the plan has more documents.
    fn end_text(&mut self, store: &mut S) -> Result<u64, Fault>
        requires whole { IsWhole (pass self.old) (S.files store.old) }
        ensures { Between S.files S.reads S.faults store.old store.new
            (TextEnd (pass self.old) (pass self.new) result) };

    /// The occurrences, without the text.
    fn into_index(self) -> Inverter<'a>
        ensures { result ≡ (pass self).index };
}

/// Writes each of the four that is met.
pub(crate) fn put_marks<'a, S: Store, W: MarkWriter<'a, S>>(
    writer: &mut W,
    store: &mut S,
    met: &Met,
) -> Result<(), Fault>
    requires next { IsNext (W.pass writer.old) (S.files store.old) (marks_of met.now) }
    ensures { Between S.files S.reads S.faults store.old store.new
        (PassStep (W.pass writer.old) (W.pass writer.new) (marks_of met.now) result) }
{
    if met.is_piece_alone() {
        return writer.piece_if(store, true, met.kind(), &Piece::alone(met.piece()));
    }
    put_each(writer, store, met)
}

/// Writes a piece that is met alone.
#[inline]
pub(crate) fn put_piece<'a, S: Store, W: MarkWriter<'a, S>>(
    writer: &mut W,
    store: &mut S,
    stream: Stream,
    piece: &Piece<'_>,
) -> Result<(), Fault>
    requires next { IsNext (W.pass writer.old) (S.files store.old)
        (piece_mark stream piece.now ∷ []) }
    ensures { Between S.files S.reads S.faults store.old store.new
        (PassStep (W.pass writer.old) (W.pass writer.new) (piece_mark stream piece.now ∷ [])
        result) }
{
    writer.piece_if(store, true, stream, piece)
}

// The same, asking for each of the four.
#[inline(never)]
fn put_each<'a, S: Store, W: MarkWriter<'a, S>>(
    writer: &mut W,
    store: &mut S,
    met: &Met,
) -> Result<(), Fault>
    requires next { IsNext (W.pass writer.old) (S.files store.old) (marks_of met.now) }
    ensures { Between S.files S.reads S.faults store.old store.new
        (PassStep (W.pass writer.old) (W.pass writer.new) (marks_of met.now) result) }
{
    writer.begin_if(store, met.begins())?;
    writer.piece_if(
        store,
        met.has_piece(),
        met.kind(),
        &Piece::alone(met.piece()),
    )?;
    writer.piece_if(store, met.has_other(), met.other_kind(), &Piece::alone(&[]))?;
    writer.end_if(store, met.ends())
}

/// Ends the text and the runs, behind the marks of a whole collection. Refused where the plan has more
/// documents. It reads the parts of the runs alone, and what it reads is damaged only where the store does
/// not tell its files.
pub(crate) fn end_marks<'a, S: Store, W: MarkWriter<'a, S> + Drop>(
    store: &mut S,
    writer: W,
) -> Result<Inverted<'a>, Fault>
    requires whole { IsWhole (W.pass writer) (S.files store.old) }
    ensures ends { HandsOn (W.pass writer) (S.files store.old) (S.files store.new) result }
    ensures step { Between S.files S.reads S.faults store.old store.new
        (SortStep OfSecond (W.pass writer).base) }
    ensures refused { EndRefused (W.pass writer) S.files S.faults store.old store.new result }
    ensures tells { EndTells (W.pass writer) (S.files store.old) result }
{
    // A law: what the runs took stays while the text is written.
    runs_stay();
    let mut writer = writer;
    let text_bytes = match writer.end_text(store) {
        Ok(size) => size,
        Err(refusal) => return Err(refusal),
    };
    match writer.into_index().merge(store, text_bytes) {
        Ok(inverted) => Ok(inverted),
        Err(refusal) => Err(Fault::from(refusal)),
    }
}
