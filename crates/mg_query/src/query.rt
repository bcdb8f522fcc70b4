//! A Boolean query.
ghost use Rattle.std.specs.Prelude.{◌≡◌, ◌++◌, ℕ, List, length, drop, IfOk, OnOk};
ghost use Rattle.mg_defs.specs.QueryTerms.{query_terms};
ghost use Rattle.mg_defs.specs.Sat.{both, either, satisfies};
ghost use Rattle.mg_defs.specs.Read.{negated};
ghost use Rattle.mg_query.specs.Holds.{AreThere, holds as holds_spec};
ghost use Rattle.mg_defs.specs.Phrases.{all_of};
ghost use Rattle.mg_query.specs.AllOf.{IsAllOf};
ghost use Rattle.mg_query.specs.QueryOf.{query_of};

use crate::term::Term;
use crate::terms::Terms;
use std::alloc::{AllocError, Global};

/// What a Boolean line asks for.
///
/// Contracts see the query of `mg_defs` that it stands for, `query_of`.
#[derive(Debug, Drop)]
pub enum Query {
    /// The documents that have the term.
    Term(Term),
    And(Box<Query>, Box<Query>),
    Or(Box<Query>, Box<Query>),
    Not(Box<Query>),
}

impl Query {
    /// The terms from left to right, repeats kept.
    pub fn terms(&self, alloc: Global) -> Result<Terms, AllocError>
        ensures { IfOk result (λ terms. terms ≡ query_terms (query_of self.now)) }
    {
        let mut terms = Terms::new(alloc);
        self.add_terms(alloc, &mut terms)?;
        Ok(terms)
    }

    fn add_terms(&self, alloc: Global, terms: &mut Terms) -> Result<(), AllocError>
        ensures { OnOk result (terms.new ≡ terms.old ++ query_terms (query_of self.now)) }
    {
        match self {
            Query::Term(term) => terms.push(term.copied(alloc)?),
            Query::And(left, right) => {
                left.add_terms(alloc, terms)?;
                right.add_terms(alloc, terms)
            }
            Query::Or(left, right) => {
                left.add_terms(alloc, terms)?;
                right.add_terms(alloc, terms)
            }
            Query::Not(inner) => inner.add_terms(alloc, terms),
        }
    }

    pub(crate) fn and(alloc: Global, left: Query, right: Query) -> Result<Query, AllocError>
        ensures { IfOk result (λ q. query_of q ≡ both (query_of left) (query_of right)) }
    {
        let left = Box::new(alloc, left)?;
        let right = Box::new(alloc, right)?;
        Ok(Query::And(left, right))
    }

    pub(crate) fn or(alloc: Global, left: Query, right: Query) -> Result<Query, AllocError>
        ensures { IfOk result (λ q. query_of q ≡ either (query_of left) (query_of right)) }
    {
        let left = Box::new(alloc, left)?;
        let right = Box::new(alloc, right)?;
        Ok(Query::Or(left, right))
    }

    /// The query of the documents that have all of these terms; none of no terms.
    ///
    /// It is as deep as the list is long.
    ///
    /// # Errors
    ///
    /// Want of memory.
    pub fn all_of(alloc: Global, terms: &Terms) -> Result<Option<Query>, AllocError>
        ensures { IfOk result (λ joined. IsAllOf terms.now joined) }
    {
        match terms.as_slice().split_first() {
            None => Ok(None),
            Some((first, rest)) => Ok(Some(Query::joined(alloc, first, rest)?)),
        }
    }

    /// A term and those behind it, joined by `&` from the last to the first.
    fn joined(alloc: Global, first: &Term, rest: &[Term]) -> Result<Query, AllocError>
        ensures { IfOk result (λ q. query_of q ≡ all_of first.now rest.now) }
    {
        let term = Query::Term(first.copied(alloc)?);
        match rest.split_first() {
            None => Ok(term),
            Some((next, rest)) => {
                let behind = Query::joined(alloc, next, rest)?;
                Query::and(alloc, term, behind)
            }
        }
    }

    /// The query under so many signs `!`.
    pub(crate) fn negated(alloc: Global, query: Query, signs: u32) -> Result<Query, AllocError>
        ensures { IfOk result (λ q. query_of q ≡ negated signs (query_of query)) }
    {
        let mut negated = query;
        for _sign in 0..signs {
            negated = Query::Not(Box::new(alloc, negated)?);
        }
        Ok(negated)
    }

    /// Whether it holds where those of its terms are there, from left to right; and what stands
    /// behind these.
    fn holds_first<'a>(&self, there: &'a [bool]) -> (bool, &'a [bool])
        ensures value { result.0 ≡ holds_spec (query_of self.now) there.now }
        ensures rest { result.1.now ≡ drop (length (query_terms (query_of self.now))) there.now }
    {
        match self {
            Query::Term(_) => match there.split_first() {
                Some((first, rest)) => (*first, rest),
                None => (false, there),
            },
            Query::And(left, right) => {
                let (left, rest) = left.holds_first(there);
                let (right, rest) = right.holds_first(rest);
                (left && right, rest)
            }
            Query::Or(left, right) => {
                let (left, rest) = left.holds_first(there);
                let (right, rest) = right.holds_first(rest);
                (left || right, rest)
            }
            Query::Not(inner) => {
                let (inner, rest) = inner.holds_first(there);
                (!inner, rest)
            }
        }
    }

    /// Whether a document satisfies it that has those of its terms, from left to right, which are
    /// there.
    pub fn holds(&self, there: &[bool]) -> bool
        ensures value { result ≡ holds_spec (query_of self.now) there.now }
        ensures satisfied { (doc : List ℕ) →
            AreThere doc (query_terms (query_of self.now)) there.now →
            result ≡ satisfies (query_of self.now) doc }
    {
        self.holds_first(there).0
    }
}
