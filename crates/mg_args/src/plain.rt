//! Words that are read by a rule of their own: names, and numbers without leading zeros.
ghost use Rattle.std.specs.Prelude.{◌≡◌, ◌≤◌, IfSome};
ghost use Rattle.mg_args.specs.Plain.{is_plain_name as is_plain_name_spec, plain_number as plain_number_spec};

use itoa::Buffer;

/// The word is not empty and does not begin with `-`.
pub fn is_plain_name(word: &str) -> bool
    ensures { result ≡ is_plain_name_spec word.now }
{
    match word.as_bytes() {
        [] => false,
        [first, ..] => *first != b'-',
    }
}

/// The number that the word writes without leading zeros, where it lies within the bounds.
pub fn plain_number(word: &str, low: u64, high: u64) -> Option<u64>
    ensures is { result ≡ plain_number_spec low high word.now }
    ensures within { IfSome result (λ n. (low ≤ n) × (n ≤ high)) }
{
    let Ok(number) = word.parse::<u64>() else {
        return None;
    };
    if Buffer::new().format(number) != word {
        return None;
    }
    if number < low || number > high {
        return None;
    }
    Some(number)
}
