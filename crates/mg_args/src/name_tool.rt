//! The tools that take one name.
ghost use Rattle.std.specs.Prelude.{◌≡◌};
ghost use Rattle.mg_args.specs.Commands.{IsOwnId};
ghost use Rattle.mg_args.specs.Tasks.{name_id};

/// A tool that takes one name: that of a set, or of the collection where the tool is `Scan`.
#[derive(Clone, Copy, Debug, PartialEq, Eq)]
pub enum NameTool {
    /// Answers lines from the set.
    Query,
    /// Prints the collection of the set.
    Decode,
    /// Answers lines from the collection.
    Scan,
    /// Decides whether the set stands for a collection.
    Check,
    /// Answers patterns from the set.
    Wild,
    /// Answers phrases from the set.
    Phrase,
}

impl NameTool {
    /// The id of the name.
    pub(crate) fn id(self) -> &'static str
        ensures is { result.now ≡ name_id self }
        ensures own { IsOwnId result.now }
    {
        match self {
            NameTool::Scan => "collection",
            _ => "name",
        }
    }
}
