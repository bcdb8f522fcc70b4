//! What is asked of each store, whatever it keeps its files in.
use mg_dev::{FileRef, Part, Store};

/// Reads of a file with the bytes "abcdef": the place, how many of four bytes are read, and the first of them.
const READS: [(u64, usize, u8); 4] = [
    (0, 4, b'a'),
    (4, 2, b'e'),
    (6, 0, b'-'),
    (u64::MAX, 0, b'-'),
];

// How many bytes are read from a place on, and the first of them; none where the read fails.
fn read<S: Store>(store: &mut S, file: &FileRef<'_>, at: u64) -> Option<(usize, u8)> {
    let mut buf = [b'-'; 4];
    match store.read_at(file, at, &mut buf) {
        Ok(count) => Some((count, buf[0])),
        Err(_) => None,
    }
}

// Whether each read gives its bytes.
fn reads_well<S: Store>(store: &mut S, file: &FileRef<'_>) -> bool {
    for (at, count, first) in READS {
        if read(store, file, at) != Some((count, first)) {
            return false;
        }
    }
    true
}

/// Whether a file that is missing reads as an empty one, grows, is read, and is emptied: eleven calls, of which five are reads.
pub fn keeps_a_file<S: Store>(store: &mut S, file: &FileRef<'_>) -> bool {
    let is_missing = store.size(file) == Ok(None) && read(store, file, 0) == Some((0, b'-'));
    let has_grown = store.append(file, b"abc") == Ok(()) && store.append(file, b"def") == Ok(());
    let is_kept = store.size(file) == Ok(Some(6)) && reads_well(store, file);
    let is_emptied = store.reset(file) == Ok(()) && store.size(file) == Ok(Some(0));
    is_missing && has_grown && is_kept && is_emptied
}

/// Whether each of the four calls fails.
pub fn fails<S: Store>(store: &mut S, file: &FileRef<'_>) -> bool {
    let is_unread = store.size(file).is_err() && read(store, file, 0).is_none();
    is_unread && store.reset(file).is_err() && store.append(file, b"a").is_err()
}
