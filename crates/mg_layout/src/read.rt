//! The head that bytes write, or what is wrong first in them.
ghost use Rattle.std.specs.Prelude.{◌≡◌, ◌+◌, ◌≤◌, ◌<◌, ℕ, List, IfOk, length, map, min, slice_index, take};
ghost use Rattle.mg_defs.specs.Heads as defs;
ghost use Rattle.mg_defs.specs.Numbers.{four_at};
ghost use Rattle.mg_layout.specs.HeadAnswers.{AnswersChecks, AnswersParse, AreVersions, check_of, checks_of_narrow, checks_of_wide, fields_of};

use crate::check::{Check, pass_all};
use crate::head::Head;
use mg_dev::Bad;
use mg_fields::{eight_at, four_at};

// The sizes of a head of version 1 and of version 2.
const NARROW: u64 = 64;

const WIDE: u64 = 80;

/// Reads a head of a version from low to high, in a part of this size that begins with these bytes.
pub(crate) fn parse(bytes: &[u8; 80], size: u64, low: u8, high: u8) -> Result<Head, Bad>
    requires size { 64 ≤ size }
    requires versions { AreVersions low high }
    ensures told { (all : List ℕ) → length all ≡ size → take (min 80 size) bytes.now ≡ take 80 all →
        AnswersParse low high all result }
    ensures within { IfOk result (λ head. defs.IsWithin (fields_of head)) }
{
    let version = match version_of(bytes, low, high) {
        Ok(version) => version,
        Err(bad) => return Err(bad),
    };
    if version == 1 {
        if size != NARROW {
            return Err(Check::exactly(0, NARROW, size).bad());
        }
        read_narrow(&bytes[..64])
    } else {
        if size != WIDE {
            return Err(Check::exactly(0, WIDE, size).bad());
        }
        read_wide(bytes, version)
    }
}

// The version that the first eight bytes tell.
fn version_of(bytes: &[u8], low: u8, high: u8) -> Result<u8, Bad>
    requires long { 8 ≤ length bytes.now }
    requires versions { AreVersions low high }
    ensures { AnswersChecks (defs.magic_checks low high bytes.now) result
        (λ version. 48 + version ≡ slice_index bytes.now 6) }
{
    match pass_all(&magic_checks(bytes, low, high)) {
        Ok(()) => Ok(bytes[6] - b'0'),
        Err(bad) => Err(bad),
    }
}

fn magic_checks(bytes: &[u8], low: u8, high: u8) -> [Check; 8]
    requires long { 8 ≤ length bytes.now }
    requires versions { AreVersions low high }
    ensures { map check_of result ≡ defs.magic_checks low high bytes.now }
{
    [
        byte_check(bytes, 0, b'M', b'M'),
        byte_check(bytes, 1, b'G', b'G'),
        byte_check(bytes, 2, b'R', b'R'),
        byte_check(bytes, 3, b'O', b'O'),
        byte_check(bytes, 4, b'W', b'W'),
        byte_check(bytes, 5, b'v', b'v'),
        byte_check(bytes, 6, b'0' + low, b'0' + high),
        byte_check(bytes, 7, b'\n', b'\n'),
    ]
}

fn byte_check(bytes: &[u8], at: usize, low: u8, high: u8) -> Check
    requires { at < length bytes.now }
    ensures { check_of result ≡ defs.within at low high (slice_index bytes.now at) }
{
    Check::within(
        at as u64,
        u64::from(low),
        u64::from(high),
        u64::from(bytes[at]),
    )
}

fn read_narrow(bytes: &[u8]) -> Result<Head, Bad>
    requires { length bytes.now ≡ 64 }
    ensures { AnswersChecks (checks_of_narrow bytes.now) result
        (λ head. fields_of head ≡ defs.narrow_head bytes.now) }
{
    match pass_all(&first_checks(bytes, 1 << 20, 1 << 20)) {
        Ok(()) => {}
        Err(bad) => return Err(bad),
    }
    match pass_all(&narrow_checks(bytes)) {
        Ok(()) => {}
        Err(bad) => return Err(bad),
    }
    Ok(Head {
        version: 1,
        documents: four_at(bytes, 8),
        words: four_at(bytes, 12),
        others: four_at(bytes, 16),
        terms: four_at(bytes, 20),
        cap: four_at(bytes, 24),
        open_end: four_at(bytes, 28) == 1,
        collection: u64::from(four_at(bytes, 32)),
        occurrences: u64::from(four_at(bytes, 36)),
        runs: four_at(bytes, 40),
        text_bytes: u64::from(four_at(bytes, 44)),
        post_bytes: eight_at(bytes, 48),
        skip_count: eight_at(bytes, 56),
    })
}

fn read_wide(bytes: &[u8], version: u8) -> Result<Head, Bad>
    requires long { length bytes.now ≡ 80 }
    requires version { 48 + version ≡ slice_index bytes.now 6 }
    ensures { AnswersChecks (checks_of_wide bytes.now) result
        (λ head. fields_of head ≡ defs.wide_head bytes.now) }
{
    match pass_all(&first_checks(bytes, 1 << 24, 1 << 22)) {
        Ok(()) => {}
        Err(bad) => return Err(bad),
    }
    match pass_all(&wide_checks(bytes)) {
        Ok(()) => {}
        Err(bad) => return Err(bad),
    }
    Ok(Head {
        version,
        documents: four_at(bytes, 8),
        words: four_at(bytes, 12),
        others: four_at(bytes, 16),
        terms: four_at(bytes, 20),
        cap: four_at(bytes, 24),
        open_end: four_at(bytes, 28) == 1,
        collection: eight_at(bytes, 32),
        occurrences: eight_at(bytes, 40),
        runs: four_at(bytes, 48),
        text_bytes: eight_at(bytes, 56),
        post_bytes: eight_at(bytes, 64),
        skip_count: eight_at(bytes, 72),
    })
}

// The fields that stand at one place in every version, with the most documents and pieces.
fn first_checks(bytes: &[u8], documents: u64, pieces: u64) -> [Check; 6]
    requires { 32 ≤ length bytes.now }
    ensures { map check_of result ≡ defs.first_checks
        (record { documents = documents; pieces = pieces; collection = 0 }) bytes.now }
{
    let words = u64::from(four_at(bytes, 12));
    [
        Check::within(8, 0, documents, u64::from(four_at(bytes, 8))),
        Check::within(12, 0, pieces, words),
        Check::within(16, 0, pieces, u64::from(four_at(bytes, 16))),
        Check::within(20, 0, words, u64::from(four_at(bytes, 20))),
        Check::within(24, 341, 89_478_485, u64::from(four_at(bytes, 24))),
        Check::within(28, 0, 1, u64::from(four_at(bytes, 28))),
    ]
}

fn narrow_checks(bytes: &[u8]) -> [Check; 4]
    requires long { length bytes.now ≡ 64 }
    requires cap { 0 < four_at bytes.now 24 }
    ensures { map check_of result ≡ defs.narrow_checks bytes.now }
{
    let cap = u64::from(four_at(bytes, 24));
    let collection = u64::from(four_at(bytes, 32));
    let occurrences = u64::from(four_at(bytes, 36));
    let runs = u64::from(four_at(bytes, 40));
    [
        Check::within(32, 0, 1 << 28, collection),
        Check::within(36, 0, collection, occurrences),
        Check::exactly(40, occurrences.div_ceil(cap), runs),
        Check::within(56, 0, occurrences, eight_at(bytes, 56)),
    ]
}

fn wide_checks(bytes: &[u8]) -> [Check; 5]
    requires long { length bytes.now ≡ 80 }
    requires cap { 0 < four_at bytes.now 24 }
    ensures { map check_of result ≡ defs.wide_checks bytes.now }
{
    let cap = u64::from(four_at(bytes, 24));
    let collection = eight_at(bytes, 32);
    let occurrences = eight_at(bytes, 40);
    let runs = u64::from(four_at(bytes, 48));
    [
        Check::within(32, 0, (1 << 32) - 1, collection),
        Check::within(40, 0, collection, occurrences),
        Check::exactly(48, occurrences.div_ceil(cap), runs),
        Check::exactly(52, 0, u64::from(four_at(bytes, 52))),
        Check::within(72, 0, occurrences, eight_at(bytes, 72)),
    ]
}
