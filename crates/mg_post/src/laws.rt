//! The laws of lists that stand in Post and Skip.
ghost use Rattle.std.specs.Prelude.{◌≡◌, ◌≢◌, ◌-◌, ◌^◌, ◌<◌, ◌≤◌, ℕ, List, [], true, Contains, length};
ghost use Rattle.mg_defs.specs.declared.Posting.{Posting};
ghost use Rattle.mg_defs.specs.Split.{documents};
ghost use Rattle.mg_defs.specs.Terms.{docs};
ghost use Rattle.mg_defs.specs.Lists.{block_count, post_bits, postings, list_byte, first_entry};
ghost use Rattle.std.specs.declared.option.Option.{Option};
ghost use Rattle.mg_dev.specs.Files.{Files};
ghost use Rattle.mg_dev.specs.Files.{Reads};
ghost use Rattle.mg_defs.specs.PageBounds.{pages_for};
ghost use Rattle.mg_post.specs.Cursor.{CursorFits, Cursoring, CursorStands, ReadsTwo, SameList, StandsAt, entered_pages, post_pages, WhereSameLists};
ghost use Rattle.mg_post.specs.Finding.{entries_pages};
ghost use Rattle.mg_post.specs.PagesOnce.{front_pages, span_pages};
ghost use Rattle.mg_post.specs.TermLists.{CursorFor, EnteredFor, ForCalls, IsAmong, KeepsEntered, MostEntered, all_met, PostRises};
ghost use Rattle.mg_post.specs.Writing.{Listing, Took, WhereSameFiles};
ghost use Rattle.mg_post.specs.Laws.{ForHeld, WhereFew, WhereListsHeld, TermListStands, StandsAmong};

/// Where two parts hold lists and their skip entries, each list stands where the lists before it
/// end.
pub fn lists_stand()
    ensures { ForHeld StandsAmong }
{}

/// Where two parts hold the lists of a collection, the list of each of its terms stands where the
/// lexicon says.
pub fn list_of_a_term_stands()
    ensures { (collection : List ℕ) (n : ℕ) (t post skip : List ℕ) →
        WhereListsHeld collection n t post skip (TermListStands collection n t post skip) }
{}

/// The lists of a collection within the limits have at most 2^63 bits.
pub fn post_is_short()
    ensures { (collection : List ℕ) → WhereFew collection (length (post_bits collection) ≤ 2 ^ 63) }
{}

/// What the lexicon tells of a term of a collection within the limits fits in its field: the number of
/// documents in 4 bytes, the byte of its list in 8, and its first skip entry in 4.
pub fn infos_fit()
    ensures docs { (collection : List ℕ) (t : List ℕ) → length (documents collection) ≤ 2 ^ 24 →
        docs collection t < 2 ^ 32 }
    ensures post_at { (collection : List ℕ) (n : ℕ) →
        WhereFew collection (list_byte collection n < 2 ^ 64) }
    ensures skip_at { (collection : List ℕ) (n : ℕ) → length collection < 2 ^ 32 →
        first_entry collection n < 2 ^ 32 }
{}

/// Where no posting of a list is left, the cursor has ended, and reads nothing from then on.
pub fn after_the_last()
    ensures { (c : Cursoring) (ps : List Posting) → ps ≢ [] → StandsAt c ps [] → c.ended ≡ true }
{}

/// A list that stands for a cursor stands for it after each call that keeps its list and the two
/// parts that it reads: other files may change.
pub fn list_still_stands()
    ensures { (c d : Cursoring) (f g : Option Files) (ps : List Posting) → SameList c d →
        WhereSameLists c f g (CursorStands c f ps → CursorStands d g ps) }
{}

/// What a cursor keeps agrees with its two parts as long as these stay as they are: other files may
/// change.
pub fn cursor_still_fits()
    ensures { (c : Cursoring) (f g : Option Files) →
        WhereSameLists c f g (CursorFits c f → CursorFits c g) }
{}

/// Over its life a cursor enters no blocks but those whose range holds a document that it is asked
/// for, each of them once: where `asked` has the documents of all calls, each call that is answered
/// keeps to it, and one that is refused comes to no more than the pages of all such blocks. Where the
/// parts stand, these are fewer than 2^50 and so are those of the skip entries, so that no number
/// comes to its end, and the reads of Post rise by no more than the cursor's.
pub fn blocks_are_entered_once()
    ensures start { (asked : List ℕ) (ps : List Posting) (c : Cursoring) → entered_pages c ≡ 0 →
        EnteredFor asked ps c }
    ensures more { ForCalls KeepsEntered }
    ensures most { ForCalls MostEntered }
    ensures few { (asked : List ℕ) (ps : List Posting) (files : Option Files) (c : Cursoring) →
        CursorStands c files ps →
        all_met asked c ps < 2 ^ 50 }
    ensures skip { (skip_at docs : ℕ) → docs < 2 ^ 32 → entries_pages skip_at (block_count docs)
        < 2 ^ 50 }
    ensures reads { (c v : Cursoring) (before now : Reads) → ReadsTwo c v before now →
        entered_pages v < 2 ^ 64 - 1 →
        PostRises c v before now }
{}

/// A document that is one of those asked may be asked of every list.
pub fn documents_are_among()
    ensures { (asked : List ℕ) (ps : List Posting) (doc : ℕ) → Contains asked doc →
        IsAmong asked ps doc }
{}

/// A cursor that was asked for no document past one was asked for none past a later one.
pub fn cursor_for_later()
    ensures { (base collection asked t : List ℕ) (m n : ℕ) (c : Cursoring) → m ≤ n →
        CursorFor base collection asked t m c →
        CursorFor base collection asked t n c }
{}

/// What a cursor over the list of a term has read is within the pages that may be read.
pub fn cursor_pages_are_within()
    ensures { (base collection asked t : List ℕ) (n : ℕ) (c : Cursoring) →
        CursorFor base collection asked t n c → post_pages c ≤ pages_for collection asked t }
{}

/// A cursor over the list of a term has read no page of Post twice: no more pages than lie from the
/// list's first bit to the last bit of the blocks that it reached, and so no more than the list lies on.
pub fn each_page_is_read_once()
    ensures reached { (base collection asked t : List ℕ) (n : ℕ) (c : Cursoring) →
        CursorFor base collection asked t n c →
        post_pages c ≤ front_pages c c.reached (postings collection t) }
    ensures span { (base collection asked t : List ℕ) (n : ℕ) (c : Cursoring) →
        CursorFor base collection asked t n c → post_pages c ≤ span_pages collection t }
{}

/// What a writer took stays, and it may write on, as long as its two files do: calls that write
/// other files don't matter.
pub fn lists_stay()
    ensures { (w : Listing) (f g : Option Files) (lists : List (List Posting)) (ps : List Posting) →
        WhereSameFiles w f g (Took w f lists ps → Took w g lists ps) }
{}
