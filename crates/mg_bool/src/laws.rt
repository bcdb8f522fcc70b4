//! The laws of the documents that satisfy a query.
ghost use Rattle.std.specs.Prelude.{◌≡◌, ◌≤◌, ℕ, List, Option, sum_by};
ghost use Rattle.mg_dev.specs.Files.{Files};
ghost use Rattle.mg_query.specs.QueryOf.{query_of};
ghost use Rattle.mg_post.specs.Cursor.{Cursoring, post_pages};
ghost use Rattle.mg_post.specs.PagesOnce.{span_pages};
ghost use Rattle.mg_post.specs.TermLists.{CursorFor};
ghost use Rattle.mg_defs.specs.PageBounds.{boolean_bound};
ghost use Rattle.mg_defs.specs.QueryTerms.{query_terms};
ghost use Rattle.mg_defs.specs.Sat.{Query};
ghost use Rattle.mg_defs.specs.ShownAnswers.{satisfying};
ghost use Rattle.mg_bool.specs.Calls.{SkipsWithin, entries_of, skips_read};
ghost use Rattle.mg_bool.specs.Places.{Place, pages_read, place_bound, term_entries};
ghost use Rattle.mg_bool.specs.Matches.{MatchesFit, MatchesOver, Matching, left_of, query_bound, WhereListsStay};
ghost use Rattle.mg_bool.specs.Shown.{SameLists};

use mg_post::{cursor_pages_are_within, cursor_still_fits, each_page_is_read_once};

/// Before the first document is answered, all that satisfy the query are to come.
pub fn all_are_to_come()
    ensures { (collection : List ℕ) (m : Matching) → m.decided ≡ 0 →
        left_of collection m ≡ satisfying collection (query_of m.asks) }
{}

/// At each place of a query no page of Post was read twice: no more pages than the lists of the
/// query's terms lie on.
pub fn matches_read_each_page_once()
    ensures { (base collection : List ℕ) (m : Matching) → MatchesOver base collection m →
        pages_read m.places ≤ sum_by (span_pages collection) (query_terms (query_of m.asks)) }
{
    each_page_is_read_once();
}

/// What a query may read of Post: no more than the pages of the blocks whose range holds a document that
/// is asked, block by block, nor than those on which the lists of its terms lie.
pub fn query_bound_is_the_lesser()
    ensures blocks { (collection : List ℕ) (q : Query) →
        query_bound collection q ≤ boolean_bound collection q }
    ensures spans { (collection : List ℕ) (q : Query) →
        query_bound collection q ≤ sum_by (span_pages collection) (query_terms q) }
{}

/// What a cursor over the list of a term has read is within what its place may read.
pub(crate) fn cursors_are_within()
    ensures { (base collection asked t : List ℕ) (n : ℕ) (c : Cursoring) →
        CursorFor base collection asked t n c → post_pages c ≤ place_bound collection asked t }
{
    cursor_pages_are_within();
    each_page_is_read_once();
}

/// Where each cursor has read no more of Skip than the entries of its list lie on, all have read no
/// more than the sum of these: of the lists of the query's terms, after any calls over the same lists.
pub fn skips_are_within()
    ensures sum { (places : List Place) → SkipsWithin places →
        skips_read places ≤ entries_of places }
    ensures terms { (base collection : List ℕ) (m now : Matching) → MatchesOver base collection m →
        SameLists m now → SkipsWithin now.places →
        skips_read now.places ≤ sum_by (term_entries collection) (query_terms (query_of m.asks)) }
{}

/// What was kept agrees with the two parts as long as these stay as they are: other files may change.
pub fn matches_still_fit()
    ensures { (base : List ℕ) (f g : Option Files) (m : Matching) →
        WhereListsStay base f g (MatchesFit base f m → MatchesFit base g m) }
{
    cursor_still_fits();
}
