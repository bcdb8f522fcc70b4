//! The plan of the second pass, and the symbols that were found by it.
ghost use Rattle.std.specs.Prelude.{◌≡◌, position};
ghost use Rattle.std.specs.Str.{bytes_eq};
ghost use Rattle.mg_defs.specs.Marks.{code_of};

use mg_count::Plan;
use mg_model::{FoundSymbols, Piece};
use mg_parse::Stream;
use std::alloc::Global;
use std::marker::Model;

/// A plan, and symbols of its model's pieces that were found, of each stream.
#[derive(Drop)]
pub(crate) struct PlanPieces<'a> {
    plan: &'a Plan,
    words: FoundSymbols,
    others: FoundSymbols,
}

impl<'a> Model for PlanPieces<'a> {
    ghost use Rattle.mg_count.specs.Plans.{Plan as Planned};
    ghost use Rattle.mg_model.specs.Found.{AreFound};

    ghost Value = { Planned };

    ghost view = { λ p. p.plan.now };

    ghost invariant = { λ p. AreFound p.words p.plan.now.code.words.pieces
        × AreFound p.others p.plan.now.code.others.pieces };
}

impl<'a> PlanPieces<'a> {
    /// No symbol was found.
    pub(crate) fn new(alloc: Global, plan: &'a Plan) -> Self
        ensures { result ≡ plan.entry.now }
    {
        PlanPieces {
            plan,
            words: FoundSymbols::new(alloc),
            others: FoundSymbols::new(alloc),
        }
    }

    /// The plan.
    #[inline]
    pub(crate) fn plan(&self) -> &'a Plan
        ensures { result.now ≡ self.now }
    {
        self.plan
    }

    /// The symbol of a piece of the stream, as the model of the plan tells it.
    #[inline]
    pub(crate) fn symbol(&mut self, stream: Stream, piece: &Piece<'_>) -> Option<u32>
        ensures symbol { result ≡ position (bytes_eq piece.now)
            (code_of stream self.old.code).pieces }
        ensures same { self.new ≡ self.old }
    {
        let plan = self.plan;
        match stream {
            Stream::Words => plan.model.symbol_near(stream, piece, &mut self.words),
            Stream::Others => plan.model.symbol_near(stream, piece, &mut self.others),
        }
    }
}
