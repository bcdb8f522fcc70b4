//! The rows of a ranked answer.
ghost use Rattle.std.specs.Prelude.{◌≡◌};
ghost use Rattle.std.specs.List.Sorted.{IsPermutation};
ghost use Rattle.mg_defs.specs.Order.{AreRisingByNumber};
ghost use Rattle.mg_defs.specs.Weights.{by_score};
ghost use Rattle.mg_plain.specs.RankedRows.{hits_of};

/// A document of a ranked answer.
#[derive(Clone, Copy, Debug, PartialEq, Eq)]
pub(crate) struct Row {
    /// From 1.
    pub number: u32,
    /// The byte of the collection where it begins.
    pub place: u32,
    pub score: u64,
}

/// Sorts rows by falling score, ties by rising number.
pub(crate) fn sort_rows(rows: &mut Vec<Row>)
    requires { AreRisingByNumber (hits_of rows.old.items) }
    ensures sorted { hits_of rows.new.items ≡ by_score (hits_of rows.old.items) }
    ensures same { IsPermutation rows.old.items rows.new.items }
{
    rows.sort_unstable_by(|left, right| {
        right
            .score
            .cmp(&left.score)
            .then(left.number.cmp(&right.number))
    });
}
