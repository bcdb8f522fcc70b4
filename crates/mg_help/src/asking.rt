//! Which words ask for a page.
ghost use Rattle.std.specs.Prelude.{◌≡◌, map, string_bytes};
ghost use Rattle.mg_help.specs.Pages.{is_help as is_help_spec, is_version as is_version_spec, page_of};

/// A text that the program tells of itself.
#[derive(Clone, Copy)]
pub enum Page {
    /// What the program is for, its tools and their words.
    Help,
    /// The program's version.
    Version,
}

/// The word asks for help.
fn is_help(word: &str) -> bool
    ensures { result ≡ is_help_spec word.now }
{
    word == "--help" || word == "-h" || word == "help"
}

/// The word asks for the version.
fn is_version(word: &str) -> bool
    ensures { result ≡ is_version_spec word.now }
{
    word == "--version" || word == "-V"
}

/// The page that the words after the program's name ask for, if they ask for one.
pub fn page_asked(words: &[String]) -> Option<Page>
    ensures { result ≡ page_of (map string_bytes words.now) }
{
    let [word] = words else {
        return None;
    };
    if is_help(word.as_str()) {
        return Some(Page::Help);
    }
    if is_version(word.as_str()) {
        return Some(Page::Version);
    }
    None
}
