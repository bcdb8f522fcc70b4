//! What the text has told so far.
ghost use Rattle.std.specs.Prelude.{ℕ, [], IfOk};
ghost use Rattle.mg_defs.specs.Stands.{Parts};
ghost use Rattle.mg_layout.specs.declared.head.Head.{Head};
ghost use Rattle.mg_defs.specs.Means.{IsModel};
ghost use Rattle.mg_check_text.specs.Checking.{HasRead, IsInRange};

use mg_check_parts::Uses;
use mg_model::TextModel;
use std::alloc::{AllocError, Global};

/// What the documents that were read amount to.
#[derive(Drop)]
pub(crate) struct Progress {
    /// How many there are.
    pub documents: u32,
    /// How many bytes they have, those that close them aside.
    pub bytes: u64,
    /// How many bytes the last one has.
    pub last: u64,
    /// How many bytes of the text they take.
    pub place: u64,
    /// How often each piece came.
    pub uses: Uses,
}

impl Progress {
    /// No document was read.
    pub(crate) fn new(alloc: Global, model: &TextModel) -> Result<Self, AllocError>
        ensures model { IsModel model.now }
        ensures none { IfOk result (λ p. (parts : Parts) (version : ℕ) →
            HasRead parts version model.now [] p) }
        ensures range { IfOk result (λ p. (head : Head) → IsInRange model.now head p) }
    {
        let uses = Uses::none(alloc, model)?;
        Ok(Progress {
            documents: 0,
            bytes: 0,
            last: 0,
            place: 0,
            uses,
        })
    }
}
