//! What is too large, as numbers that the code of every crate compares with.
ghost use Rattle.std.specs.Prelude.{◌≡◌, ◌/◌};
ghost use Rattle.mg_defs.specs.Limits;

/// The bytes of a collection that a set may stand for.
pub const COLLECTION_BYTES: u64 = (1 << 32) - 1;

/// The documents of a collection that a set may stand for.
pub const DOCUMENTS: u32 = 1 << 24;

/// The distinct words of such a collection, and its distinct others.
pub const PIECES: usize = 1 << 22;

/// The bytes of a piece, of a word of a query, and of a string in a part.
pub const PIECE_BYTES: usize = 255;

/// The bytes of a collection that is held in memory.
pub const HELD_BYTES: u64 = 1 << 28;

/// The bytes of a session's input.
pub const INPUT_BYTES: u64 = 1 << 32;

/// The bytes of a line, before the byte that ends it.
pub const LINE_BYTES: usize = 1024;

/// The open parentheses of a Boolean query.
pub const OPEN_PARENTHESES: u32 = 32;

/// The distinct terms of a ranked query.
pub const RANKED_TERMS: usize = 64;

/// The words of a phrase.
pub const PHRASE_WORDS: usize = 64;

/// The rotations of all terms that a session of patterns may order.
pub const ROTATIONS: u64 = 1 << 27;

/// The bytes of the pool that a build sorts in: the least that may be asked for.
pub const LEAST_BUDGET: u64 = 4096;

/// The bytes of the pool that a build sorts in: the most that may be asked for.
pub const GREATEST_BUDGET: u64 = 1 << 30;

/// The bytes of that pool where none are asked for.
pub const DEFAULT_BUDGET: u64 = 1 << 24;

/// The documents of a trial, at most.
pub const TRIAL_DOCUMENTS: u64 = 20_000;

/// The bytes of the pool that each occurrence takes.
pub const OCCURRENCE_BYTES: u64 = 12;

/// These numbers are those of the definitions.
pub fn limits_are_defined()
    ensures collection { COLLECTION_BYTES ≡ (Limits.limits 2).collection }
    ensures documents { DOCUMENTS ≡ (Limits.limits 2).documents }
    ensures pieces { PIECES ≡ (Limits.limits 2).pieces }
    ensures piece { PIECE_BYTES ≡ Limits.piece_bytes }
    ensures held { HELD_BYTES ≡ Limits.held_bytes }
    ensures input { INPUT_BYTES ≡ Limits.input_limit }
    ensures line { LINE_BYTES ≡ Limits.line_bytes }
    ensures parentheses { OPEN_PARENTHESES ≡ Limits.open_parentheses }
    ensures terms { RANKED_TERMS ≡ Limits.ranked_terms }
    ensures words { PHRASE_WORDS ≡ Limits.phrase_words }
    ensures rotations { ROTATIONS ≡ Limits.most_rotations }
    ensures least { LEAST_BUDGET ≡ Limits.least_budget }
    ensures greatest { GREATEST_BUDGET ≡ Limits.greatest_budget }
    ensures default { DEFAULT_BUDGET ≡ Limits.default_budget }
    ensures trial { TRIAL_DOCUMENTS ≡ Limits.trial_documents }
    ensures occurrence { OCCURRENCE_BYTES ≡ Limits.occurrence_bytes }
    ensures cap { Limits.greatest_cap ≡ GREATEST_BUDGET / OCCURRENCE_BYTES }
    ensures low { Limits.least_cap ≡ LEAST_BUDGET / OCCURRENCE_BYTES }
{}
