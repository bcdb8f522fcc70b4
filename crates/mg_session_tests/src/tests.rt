//! What no clause says: that sessions over real parts succeed, and how often parts are read. Other sessions, damaged sets and
//! failing devices stand in the black-box suite and with the tools.
use crate::sessions::{Kind, serve_three};
use std::test::Fail;

static GIVEN: &[u8] =
    b"cat & !the\n!x\n(\n.set query ranked\n.set maxdocs 1\nthe cat the zebra\n.set mode text\ndog\ndog\n.set query boolean\n.set maxdocs all\n.set mode count\n!cat\n.set maxdocs 0\n.quit\ncat\n";

static PRINTED: &[u8] =
    b"3\n= 1\n1\n2\n3\n= 3\n? syntax at 1\n1 100005\n= 3\n-- 2 61191\nthe dog\n\x02\n= 2\n-- 2 61191\nthe dog\n\x02\n= 2\n= 1\n? bad command\n";

#[test]
fn a_session_is_answered_from_the_parts(rt: HostRuntime) -> Result<(), Fail> {
    let seen = serve_three(rt.alloc(), Kind::Query, GIVEN, PRINTED)?;
    assert!(rt; seen.printed);
    // The page of the text is kept from one showing to the next.
    assert!(rt; seen.texts[0] == 1 && seen.head == 1 && seen.run == 0);
    Ok(())
}

/// Sessions, what they print, and how often each part that texts are shown from is read: each has one page.
static SHOWN: [(&[u8], &[u8], u64); 4] = [
    (
        b"cat & !the\n.set query ranked\ncat dog\n.set mode text\n.set mode count\ncat\n",
        b"3\n= 1\n3 116177\n2 61191\n1 50002\n= 3\n= 2\n",
        0,
    ),
    (b".set mode text\nzebra\n", b"= 0\n", 0),
    (
        b".set mode text\nsat\n",
        b"-- 1\nthe cat sat\n\x02\n= 1\n",
        1,
    ),
    (
        b".set mode text\nsat\nsat\n.set query ranked\n.set maxdocs 1\ndog\n",
        b"-- 1\nthe cat sat\n\x02\n= 1\n-- 1\nthe cat sat\n\x02\n= 1\n-- 2 61191\nthe dog\n\x02\n= 2\n",
        1,
    ),
];

#[test]
fn the_models_are_loaded_for_the_first_text_and_once(rt: HostRuntime) -> Result<(), Fail> {
    for (given, wanted, count) in &SHOWN {
        let seen = serve_three(rt.alloc(), Kind::Query, given, wanted)?;
        let each = [*count, *count];
        assert!(rt;
            seen.printed && seen.models == each && seen.texts == each,
            "{count}"
        );
    }
    Ok(())
}

/// Lines of phrases, what is printed, and how often the texts and each of their models are read: each has one page.
static PHRASES: [(&[u8], &[u8], u64); 3] = [
    (b"zebra cat\n, ,\nsat dog\n", b"= 0\n= 0\n= 0\n", 0),
    (b"the cat\nCat, CAT\n", b"1 1\n= 1\n3 1\n= 1\n", 1),
    (b"dog cat\n", b"= 0\n", 1),
];

#[test]
fn models_are_read_once_and_only_documents_with_all_words(rt: HostRuntime) -> Result<(), Fail> {
    for (given, wanted, pages) in &PHRASES {
        let seen = serve_three(rt.alloc(), Kind::Phrase, given, wanted)?;
        let are_read = seen.models == [*pages, *pages] && seen.texts[0] == *pages;
        assert!(rt; seen.printed && are_read && seen.weights == 0);
    }
    Ok(())
}

#[test]
fn patterns_are_answered_from_the_lists(rt: HostRuntime) -> Result<(), Fail> {
    let given = b"*at\nzz*\ncat\n.quit\ncat*\n";
    let wanted = b"+ cat 2\n+ sat 1\n1\n3\n= 2\n= 0\n? bad pattern at 3\n";
    let seen = serve_three(rt.alloc(), Kind::Pattern, given, wanted)?;
    assert!(rt; seen.printed && seen.models[0] == 0);
    Ok(())
}

/// Sessions of patterns, what they print, and how often the lexicon is read: it has one page.
static PATTERNS: [(&[u8], &[u8], u64); 4] = [
    (b"", b"", 0),
    (
        b"cat\n \n**\n",
        b"? bad pattern at 3\n? bad pattern at 1\n",
        0,
    ),
    (b"cat\nzz*\n", b"? bad pattern at 3\n= 0\n", 1),
    (b"zz*\nd*g\nzz*\n", b"= 0\n+ dog 2\n2\n3\n= 2\n= 0\n", 1),
];

#[test]
fn the_terms_are_loaded_for_the_first_pattern_and_once(rt: HostRuntime) -> Result<(), Fail> {
    for (given, wanted, pages) in &PATTERNS {
        let seen = serve_three(rt.alloc(), Kind::Pattern, given, wanted)?;
        assert!(rt; seen.printed && seen.lex == *pages && seen.head == 1);
    }
    Ok(())
}
