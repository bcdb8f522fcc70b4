//! What is told where the texts are not what their heads and their first reading tell.
ghost use Rattle.std.specs.Prelude.{◌≡◌, ◌≤◌, ◌<◌, ◌^◌};
ghost use Rattle.mg_layout.specs.HeadAnswers.{fields_of};
ghost use Rattle.mg_merge.specs.Stops.{Differ, IsAnswerByHeads, IsRetold, IsToldByHeads, pieces_told};

use mg_defs::{DOCUMENTS, PIECES, Stream};
use mg_dev::{Bad, Fault, Part};
use mg_layout::Head;
use mg_make::Summary;

/// A document of `found` bytes stands where `left` bytes of the collection are left, behind `at` others.
pub(crate) fn too_long(at: u64, left: u64, found: u64) -> Bad
    requires { left < found }
{
    Bad {
        part: Part::Text,
        at,
        low: 0,
        high: left,
        found,
    }
}

/// No document stands where `left` bytes of the collection are left, behind `at` others.
pub(crate) fn too_short(at: u64, left: u64) -> Bad
    requires { 0 < left }
{
    Bad {
        part: Part::Text,
        at,
        low: left,
        high: left,
        found: 0,
    }
}

/// What the second reading made otherwise than the first is told as damage: what is read of the texts stands for no
/// collection. Every other refusal is told as it is.
pub(crate) fn retold(refusal: Fault) -> Fault
    requires { Differ refusal }
    ensures { IsRetold refusal result }
{
    match refusal {
        Fault::Changed { first, second, .. } => Fault::Damaged(Bad {
            part: Part::Text,
            at: 0,
            low: first,
            high: first,
            found: second,
        }),
        other => other,
    }
}

/// What is told of a merge of two sets with these heads: a limit is passed only where their numbers together pass it.
/// Else a set holds more than its head tells, which is damage.
pub(crate) fn answer_by_heads(
    answer: Result<Summary, Fault>,
    heads: &(Head, Head),
) -> Result<Summary, Fault>
    ensures { IsAnswerByHeads (fields_of heads.now.0) (fields_of heads.now.1) answer result }
{
    match answer {
        Ok(summary) => Ok(summary),
        Err(refusal) => Err(told_by_heads(refusal, &heads.0, &heads.1)),
    }
}

// What is told of a refusal.
fn told_by_heads(refusal: Fault, first: &Head, second: &Head) -> Fault
    ensures { IsToldByHeads (fields_of first.now) (fields_of second.now) refusal result }
{
    match refusal {
        Fault::TooManyDocuments => {
            let told = u64::from(first.documents) + u64::from(second.documents);
            if told > u64::from(DOCUMENTS) {
                return refusal;
            }
            Fault::Damaged(more_than_told(told, u64::from(DOCUMENTS)))
        }
        Fault::TooManyPieces { stream } => {
            let told = u64::from(pieces_told(first, stream))
                + u64::from(pieces_told(second, stream));
            if told > PIECES as u64 {
                return refusal;
            }
            Fault::Damaged(more_than_told(told, PIECES as u64))
        }
        other => other,
    }
}

// How many pieces of a stream a head tells.
fn pieces_told(head: &Head, stream: Stream) -> u32
    ensures { result ≡ pieces_told stream (fields_of head.now) }
{
    match stream {
        Stream::Words => head.words,
        Stream::Others => head.others,
    }
}

// More than `most` were met, where the heads tell of `told`.
fn more_than_told(told: u64, most: u64) -> Bad
    requires few { told ≤ most }
    requires fits { most < 2 ^ 32 }
{
    Bad {
        part: Part::Text,
        at: 0,
        low: 0,
        high: told,
        found: most + 1,
    }
}
