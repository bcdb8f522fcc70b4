//! What the lexicon tells of the terms of a query.
ghost use Rattle.std.specs.Prelude.{◌≡◌, ◌*◌, ◌≤◌, IfOk, length};
ghost use Rattle.mg_dev.specs.Moments.{Between};
ghost use Rattle.mg_dev.specs.PartCauses.{HasPartCause};
ghost use Rattle.mg_dev.specs.declared.part.Part.TheVariants as part;
ghost use Rattle.mg_front.specs.Looks.{looks};
ghost use Rattle.mg_front.specs.Reading.{FrontFits, LookedAt, SameParts};
ghost use Rattle.mg_bool.specs.Places.{AreInfos};
ghost use Rattle.mg_rank.specs.Ranked.{AnswersOr};
ghost use Rattle.mg_session.specs.Answering.{known_infos};
ghost use Rattle.mg_session.specs.Decided.{TermsTold};
ghost use Rattle.mg_session.specs.Sessions.{ForLexicon};
ghost use Rattle.mg_session.specs.Parts.{ReadsLexicon};

use mg_dev::{PartErr, Store};
use mg_layout::TermInfo;
use mg_lex::Lex;
use mg_query::{Query, Term};
use std::alloc::{AllocError, Global};

/// A query, and what the lexicon tells of its terms, from left to right.
#[derive(Drop)]
pub(crate) struct Sought<'a> {
    pub(crate) query: &'a Query,
    pub(crate) infos: &'a [Option<TermInfo>],
}

/// What the lexicon tells of each of these terms; None for a term that no document has.
pub(crate) fn find_terms<S: Store>(
    alloc: Global,
    store: &mut S,
    lex: &mut Lex<'_, S>,
    terms: &[Term],
) -> Result<Vec<Option<TermInfo>>, PartErr>
    requires fits { FrontFits lex.old (S.files store.old) }
    ensures fits { FrontFits lex.new (S.files store.new) }
    ensures same { SameParts lex.old lex.new }
    ensures answer { ForLexicon lex.old (S.files store.old)
        (λ collection. AnswersOr result (λ infos. AreInfos collection terms.now infos.items)) }
    // Whatever the lexicon holds, the entries stand by which it tells of each term.
    ensures told { IfOk result (λ infos.
        TermsTold lex.old (S.files store.old) terms.now infos.items) }
    ensures looked { Between S.files S.reads S.faults store.old store.new
        (LookedAt part.Lex part.LexAt) }
    ensures reads { ReadsLexicon (S.reads store.old) (S.reads store.new)
        (length terms.now * looks lex.old.count) }
    ensures cause { HasPartCause (S.faults store.old) (S.faults store.new) result }
{
    let mut infos = Vec::new(alloc);
    for term in terms {
        let info = match lex.find(store, term.as_bytes()) {
            Ok(info) => info,
            Err(refusal) => return Err(refusal),
        };
        match infos.push(info) {
            Ok(()) => {}
            Err(_) => return Err(PartErr::Memory),
        }
    }
    Ok(infos)
}

/// What was told of the terms that some document has.
pub(crate) fn known_of(
    alloc: Global,
    infos: &[Option<TermInfo>],
) -> Result<Vec<TermInfo>, AllocError>
    ensures known { IfOk result (λ known. known.items ≡ known_infos infos.now) }
    ensures few { IfOk result (λ known. length known.items ≤ length infos.now) }
{
    let mut known = Vec::new(alloc);
    for info in infos {
        let Some(info) = info else {
            continue;
        };
        known.push(*info)?;
    }
    Ok(known)
}
