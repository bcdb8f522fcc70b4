//! What the words of a command line are refused for.
ghost use Rattle.std.specs.Prelude.{◌≡◌, List, None};
ghost use Rattle.mg_args.specs.Plain.{Word};
ghost use Rattle.mg_args.specs.Tasks.{task_of, IsRefused};

/// Words that are refused ask nothing. The other direction is `refused` of [`read_words`](crate::read_words).
pub fn refused_words_ask_nothing()
    ensures { (words : List Word) → IsRefused words → task_of words ≡ None }
{}
