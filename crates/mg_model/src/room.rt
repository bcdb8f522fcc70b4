//! Room for more, by less than twice what is there.
ghost use Rattle.std.specs.Prelude.{◌≡◌, ◌+◌, ◌<◌, ◌≤◌, OnOk, vec_len, vec_capacity};

use std::alloc::AllocError;

/// Makes room for one element more, where there is none for a quarter of the elements.
pub fn make_room<T>(items: &mut Vec<T>) -> Result<(), AllocError>
    ensures items { items.new.items ≡ items.old.items }
    ensures len { vec_len items.new ≡ vec_len items.old }
    ensures room { OnOk result (vec_len items.new < vec_capacity items.new) }
{
    if items.len() < items.capacity() {
        return Ok(());
    }
    items.reserve_exact(items.len() / 4 + 4)
}

/// Makes room for so many bytes more, where there is none for a sixteenth of the bytes at least.
pub fn make_room_for(bytes: &mut Vec<u8>, count: usize) -> Result<(), AllocError>
    ensures items { bytes.new.items ≡ bytes.old.items }
    ensures len { vec_len bytes.new ≡ vec_len bytes.old }
    ensures room { OnOk result (vec_len bytes.new + count ≤ vec_capacity bytes.new) }
{
    if count <= bytes.capacity() - bytes.len() {
        return Ok(());
    }
    bytes.reserve_exact(count.max(bytes.len() / 16 + 32))
}
