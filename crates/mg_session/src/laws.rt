//! What the lines of a session may read.
ghost use Rattle.std.specs.Prelude.{◌≡◌, ◌≤◌, ℕ, List, sum_by};
ghost use Rattle.mg_defs.specs.Lines.{lines};
ghost use Rattle.mg_defs.specs.PageBounds.{session_bound};
ghost use Rattle.mg_defs.specs.PlainSession.{plain_questions};
ghost use Rattle.mg_bool.specs.Places.{term_entries};
ghost use Rattle.mg_post.specs.PagesOnce.{span_pages};
ghost use Rattle.mg_session.specs.PagesAllowed.{session_allows, session_terms};
ghost use Rattle.mg_session.specs.PhraseAnswers.{line_lists};
ghost use Rattle.mg_session.specs.PhrasesAllowed.{phrases_allow, phrases_terms};
ghost use Rattle.mg_session.specs.WildAnswers.{patterns_pages, wild_blocks};

use mg_bool::query_bound_is_the_lesser;

/// The pages that the query lines of an input may read. Of Post they are no more than the blocks have
/// that may be read, each page counted once for each block on it, nor than those on which the lists of
/// the lines' terms lie. Of Skip they are those on which the entries of these lists lie.
pub fn query_lines_allow()
    ensures blocks { (collection given : List ℕ) →
        (session_allows collection given).post ≤ session_bound collection given }
    ensures lists { (collection given : List ℕ) →
        (session_allows collection given).post
        ≤ sum_by (span_pages collection) (session_terms given) }
    ensures entries { (collection given : List ℕ) →
        (session_allows collection given).skip
        ≡ sum_by (term_entries collection) (session_terms given) }
{
    query_bound_is_the_lesser();
}

/// The pages that the lines of an input may read, each a phrase. Of Post they are no more than the blocks
/// have that may be read, each page counted once for each block on it, nor than those on which the lists
/// of the phrases' words lie. Of Skip they are those on which the entries of these lists lie, and of
/// Weights there are none.
pub fn phrase_lines_allow()
    ensures blocks { (collection given : List ℕ) → (phrases_allow collection given).post
        ≤ sum_by (line_lists collection) (plain_questions (lines given)) }
    ensures lists { (collection given : List ℕ) → (phrases_allow collection given).post
        ≤ sum_by (span_pages collection) (phrases_terms given) }
    ensures entries { (collection given : List ℕ) → (phrases_allow collection given).skip
        ≡ sum_by (term_entries collection) (phrases_terms given) }
    ensures weights { (collection given : List ℕ) → (phrases_allow collection given).weights ≡ 0 }
{
    query_bound_is_the_lesser();
}

/// The pages of Post that the lines of an input may read, each a pattern: no more than those of each block
/// of the lists of the terms that match.
pub fn pattern_lines_allow()
    ensures { (collection given : List ℕ) → patterns_pages collection given
        ≤ sum_by (wild_blocks collection) (plain_questions (lines given)) }
{}
