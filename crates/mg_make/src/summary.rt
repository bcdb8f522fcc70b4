//! The numbers of a set that was made.
ghost use Rattle.std.specs.Prelude.{◌≡◌};
ghost use Rattle.mg_layout.specs.HeadAnswers.{fields_of};
ghost use Rattle.mg_make.specs.Summaries.{summary_by};

use mg_layout::Head;

/// What the files stand for, in numbers, and how much memory their postings were sorted in.
#[derive(Clone, Copy, Debug, PartialEq, Eq)]
pub struct Summary {
    pub documents: u32,
    /// The distinct words.
    pub words: u32,
    /// The distinct others: what stands between words.
    pub others: u32,
    /// The distinct words once they are folded.
    pub terms: u32,
    /// How often terms come, all together.
    pub occurrences: u64,
    /// How many sorted runs were merged.
    pub runs: u32,
    /// The greatest use of the pool, in bytes.
    pub peak: u64,
    /// The size of the pool, in bytes.
    pub budget: u64,
}

impl Summary {
    /// The numbers of a head, with the greatest use of a pool and its size.
    pub(crate) fn of(head: &Head, peak: u64, budget: u64) -> Self
        ensures { result ≡ summary_by (fields_of head.now) peak budget }
    {
        Summary {
            documents: head.documents,
            words: head.words,
            others: head.others,
            terms: head.terms,
            occurrences: head.occurrences,
            runs: head.runs,
            peak,
            budget,
        }
    }
}
