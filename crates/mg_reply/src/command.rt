//! What a line of a session is.
ghost use Rattle.std.specs.Prelude.{◌≡◌, ◌+◌, ◌*◌, ◌-◌, ◌<◌, ◌≤◌, [], ◌∷◌, length, IfSome, IfNone, true, false};
ghost use Rattle.std.specs.List.{prefix_len, list_all};
ghost use Rattle.mg_defs.specs.Terms.{same_term};
ghost use Rattle.mg_defs.specs.Commands.{is_blank as is_blank_spec, is_word as is_word_spec, begins_with_stop as begins_with_stop_spec, words, command, dot_of, set_of, set_query as set_query_spec, set_mode as set_mode_spec, set_most as set_most_spec, is_digit, value, is_most};

use mg_defs::{Command, Mode, Settings};
use mg_query::{blank_len, is_blank};

fn word_len(line: &[u8]) -> usize
    ensures is { result ≡ prefix_len is_word_spec line.now }
    ensures within { result ≤ length line.now }
{
    let mut len = 0;
    for byte in line {
        if is_blank(*byte) {
            break;
        }
        len += 1;
    }
    len
}

/// The first word, and what follows it.
fn next_word(line: &[u8]) -> Option<(&[u8], &[u8])>
    ensures some { IfSome result (λ w. words line.now ≡ w.0.now ∷ words w.1.now) }
    ensures none { IfNone result (words line.now ≡ []) }
{
    let (_, from_word) = line.split_at(blank_len(line));
    if from_word.is_empty() {
        return None;
    }
    Some(from_word.split_at(word_len(from_word)))
}

fn is_text(word: &[u8], text: &[u8]) -> bool
    ensures { result ≡ same_term word.now text.now }
{
    if word.len() != text.len() {
        return false;
    }
    for (i, byte) in word.iter().enumerate() {
        if *byte != text[i] {
            return false;
        }
    }
    true
}

#[tactic(auto, unfolding(mg_defs::specs::Commands::set_query))]
fn set_query(word: &[u8], now: &Settings) -> Command
    ensures { result ≡ set_query_spec word.now now.now }
{
    if is_text(word, b"boolean") {
        return Command::Set(Settings {
            ranked: false,
            ..*now
        });
    }
    if is_text(word, b"ranked") {
        return Command::Set(Settings {
            ranked: true,
            ..*now
        });
    }
    Command::Wrong
}

#[tactic(auto, unfolding(mg_defs::specs::Commands::set_mode))]
fn set_mode(word: &[u8], now: &Settings) -> Command
    ensures { result ≡ set_mode_spec word.now now.now }
{
    let mode = if is_text(word, b"docnums") {
        Mode::Docnums
    } else if is_text(word, b"text") {
        Mode::Text
    } else if is_text(word, b"count") {
        Mode::Count
    } else {
        return Command::Wrong;
    };
    Command::Set(Settings { mode, ..*now })
}

#[tactic(auto, using(std::proofs::lemmas::Bool::Decides::nat_tests))]
fn digit_of(byte: u8) -> Option<u32>
    ensures some { IfSome result (λ d. (is_digit byte ≡ true) × (d ≡ byte - 48) × (d ≤ 9)) }
    ensures none { IfNone result (is_digit byte ≡ false) }
{
    if byte < b'0' || byte > b'9' {
        return None;
    }
    Some(u32::from(byte - b'0'))
}

/// A number of one to seven digits, from 1 to 2^20.
fn most_of(word: &[u8]) -> Option<u32>
    ensures some { IfSome result (λ n. (is_most word.now ≡ true) × (n ≡ value 0 word.now)) }
    ensures none { IfNone result (is_most word.now ≡ false) }
{
    if word.len() > 7 {
        return None;
    }
    let mut so_far = 0u32;
    for byte in word {
        let Some(digit) = digit_of(*byte) else {
            return None;
        };
        so_far = 10 * so_far + digit;
    }
    if so_far == 0 {
        return None;
    }
    if so_far > 1_048_576 {
        return None;
    }
    Some(so_far)
}

#[tactic(auto, unfolding(mg_defs::specs::Commands::set_most))]
fn set_most(word: &[u8], now: &Settings) -> Command
    ensures { result ≡ set_most_spec word.now now.now }
{
    if is_text(word, b"all") {
        return Command::Set(Settings { most: None, ..*now });
    }
    match most_of(word) {
        Some(most) => Command::Set(Settings {
            most: Some(most),
            ..*now
        }),
        None => Command::Wrong,
    }
}

#[tactic(auto, unfolding(mg_defs::specs::Commands::set_of))]
fn set_named(name: &[u8], word: &[u8], now: &Settings) -> Command
    ensures { result ≡ set_of name.now word.now now.now }
{
    if is_text(name, b"query") {
        return set_query(word, now);
    }
    if is_text(name, b"mode") {
        return set_mode(word, now);
    }
    if is_text(name, b"maxdocs") {
        return set_most(word, now);
    }
    Command::Wrong
}

/// What a line that begins with a full stop is.
#[tactic(auto, unfolding(mg_defs::specs::Commands::dot_of))]
fn dot_command(line: &[u8], now: &Settings) -> Command
    ensures { result ≡ dot_of (words line.now) now.now }
{
    let Some((first, line)) = next_word(line) else {
        return Command::Wrong;
    };
    let Some((name, line)) = next_word(line) else {
        return if is_text(first, b".quit") {
            Command::Quit
        } else {
            Command::Wrong
        };
    };
    let Some((word, line)) = next_word(line) else {
        return Command::Wrong;
    };
    if next_word(line).is_some() || !is_text(first, b".set") {
        return Command::Wrong;
    }
    set_named(name, word, now)
}

fn begins_with_stop(line: &[u8]) -> bool
    ensures { result ≡ begins_with_stop_spec line.now }
{
    if line.is_empty() {
        return false;
    }
    line[0] == b'.'
}

fn all_blank(line: &[u8]) -> bool
    ensures { result ≡ list_all is_blank_spec line.now }
{
    for byte in line {
        if !is_blank(*byte) {
            return false;
        }
    }
    true
}

/// What a line is, with these settings.
#[tactic(auto, unfolding(mg_defs::specs::Commands::command))]
pub fn read_command(line: &[u8], now: &Settings) -> Command
    ensures { result ≡ command line.now now.now }
{
    if begins_with_stop(line) {
        return dot_command(line, now);
    }
    if all_blank(line) {
        Command::Skip
    } else {
        Command::Ask
    }
}
