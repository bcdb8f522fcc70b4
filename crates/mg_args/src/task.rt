//! What a command line asks for.

use crate::NameTool;

/// A tool, and the values of its arguments.
#[derive(Clone, Copy, Debug, PartialEq, Eq)]
pub enum Task<'a> {
    /// Builds the set `name` of the collection, with at most `budget` bytes for the pool.
    Build {
        collection: &'a str,
        name: &'a str,
        budget: u64,
    },
    /// What a tool of one name does with it.
    Named {
        tool: NameTool,
        name: &'a str,
    },
    /// Tries the tools on a collection of `docs` documents that is made from `seed`.
    Trial {
        seed: u64,
        docs: u32,
    },
    /// Makes the set `new` of version 2 from the set `name`.
    Migrate {
        name: &'a str,
        new: &'a str,
    },
    /// Makes the set `new` of the sets `first` and `second` joined.
    Merge {
        first: &'a str,
        second: &'a str,
        new: &'a str,
    },
}
