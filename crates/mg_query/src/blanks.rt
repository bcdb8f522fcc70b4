//! Blanks of a line.
ghost use Rattle.std.specs.Prelude.{◌≡◌, ◌≤◌, length};
ghost use Rattle.std.specs.List.{prefix_len};
ghost use Rattle.mg_defs.specs.Commands.{is_blank as is_blank_spec};

/// Whether a byte is a blank or a tab.
pub fn is_blank(byte: u8) -> bool
    ensures { result ≡ is_blank_spec byte }
{
    byte == b' ' || byte == b'\t'
}

/// How many blanks stand at the front.
pub fn blank_len(line: &[u8]) -> usize
    ensures is { result ≡ prefix_len is_blank_spec line.now }
    ensures within { result ≤ length line.now }
{
    let mut len = 0;
    for byte in line {
        if !is_blank(*byte) {
            break;
        }
        len += 1;
    }
    len
}
