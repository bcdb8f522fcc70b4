//! The pages.
use crate::asking::Page;

/// The version stands here and in the file VERSION, which a test compares.
const VERSION: &str = "mg 0.9.0\n";

const HELP: &str = "\
mg keeps archives of mail, reports and manuals small, and searches them exactly.

usage: mg build COLLECTION NAME [--budget BYTES]
                                  makes the set NAME of a collection
       mg query NAME              answers Boolean and ranked queries from a set
       mg phrase NAME             answers phrases from a set
       mg wild NAME               answers words with one * from a set
       mg decode NAME             prints the collection of a set again
       mg scan COLLECTION         answers what query answers, with no set
       mg merge FIRST SECOND NEW  makes the set NEW of two sets
       mg migrate NAME NEW        makes the set NEW of a set, in version 2
       mg check NAME              says whether the files of a set are sound
       mg trial SEED DOCS         tries all of this on a collection of its own
       mg --help | -h | help      prints this text
       mg --version | -V          prints the version

COLLECTION is a file; the byte 0x02 (control-B) ends each of its documents.
mg-collect(1) makes one of mailboxes, folders and lists of files.
NAME is the name of a set, to which the ending of each of its files is added.
query, scan, phrase and wild read lines from the standard input.

    mg build letters.mail letters
    echo 'cat & !dog' | mg query letters

mg(1) is the whole manual: man mg
";

/// What a page says.
pub fn text_of(page: Page) -> &'static str {
    match page {
        Page::Help => HELP,
        Page::Version => VERSION,
    }
}
