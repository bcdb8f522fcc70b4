//! Whether a collection has the name of a part that would be written.
ghost use Rattle.std.specs.Prelude.{◌≡◌, ◌≢◌, IfSome, None};
ghost use Rattle.mg_dev.specs.Names.{ending, full_name};
ghost use Rattle.mg_dev.specs.declared.part.Part.{Part as AnyPart};
ghost use Rattle.mg_dev.specs.declared.part.Part.TheVariants.{Plain};
ghost use Rattle.mg_make.specs.Putting.{IsApart};

use mg_dev::{Part, names_apart};

// The parts of a set: all that have a file of their own.
static PARTS: [Part; 13] = [
    Part::Head,
    Part::Words,
    Part::Nonwords,
    Part::Text,
    Part::Places,
    Part::Lex,
    Part::LexAt,
    Part::Post,
    Part::Skip,
    Part::Weights,
    Part::Run,
    Part::MergeA,
    Part::MergeB,
];

/// The part of a set of this base that a file has the name of.
pub(crate) fn part_named(base: &str, name: &str) -> Option<Part>
    ensures part { IfSome result (λ part. (part ≢ Plain) × (name.now ≡ full_name base.now part)) }
    ensures one { IfSome result (λ part. (p : AnyPart) → p ≢ Plain →
        name.now ≡ full_name base.now p → part ≡ p) }
    ensures apart { result ≡ None → IsApart base.now name.now }
{
    names_apart();
    match name.as_bytes().strip_prefix(base.as_bytes()) {
        Some(end) => part_ending_in(end),
        None => None,
    }
}

// The part whose file name ends so.
fn part_ending_in(end: &[u8]) -> Option<Part>
    ensures part { IfSome result (λ part. (part ≢ Plain) × (end.now ≡ ending part)) }
    ensures none { result ≡ None → (p : AnyPart) → p ≢ Plain → end.now ≢ ending p }
{
    for part in &PARTS {
        if part.ending().as_bytes() == end {
            return Some(*part);
        }
    }
    None
}
