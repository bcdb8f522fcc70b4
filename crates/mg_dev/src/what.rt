//! What was counted twice.
ghost use Rattle.std.specs.Prelude.{◌≡◌};
ghost use Rattle.mg_dev.specs.Names.{counted_name};

/// What was counted twice and came out differently.
#[derive(Clone, Copy, Debug, PartialEq, Eq)]
pub enum What {
    /// The bytes of the collection.
    Size,
    /// The documents.
    Documents,
    /// The pairs of a word and what follows it.
    Pairs,
    /// The occurrences of a word.
    Words,
    /// The occurrences of a piece between words.
    Others,
}

impl What {
    /// Its name in a fault line.
    pub fn name(self) -> &'static str
        ensures { result.now ≡ counted_name self }
    {
        match self {
            What::Size => "size",
            What::Documents => "documents",
            What::Pairs => "pairs",
            What::Words => "words",
            What::Others => "others",
        }
    }
}
