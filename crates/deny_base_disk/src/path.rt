ghost use Rattle.std.specs.Prelude.{◌≡◌, ◌≤◌, length};
ghost use Rattle.std.specs.List.{before_first, position_or_len};
ghost use Rattle.deny_base_disk.specs.Paths.{is_name, is_path, is_slash, names_behind};

/// Whether a path has the form of those at which files are put: it is not empty, and behind each
/// of its slashes stands a name, neither empty nor `.` nor `..`.
pub fn is_path(path: &str) -> bool
    ensures { result ≡ is_path path.now }
{
    let bytes = path.as_bytes();
    !bytes.is_empty() && names_behind(bytes)
}

fn names_behind(bytes: &[u8]) -> bool
    ensures { result ≡ names_behind bytes.now }
{
    let mut rest = bytes;
    while let Some((byte, after)) = rest.split_first() {
        if *byte == b'/' && !begins_with_name(after) {
            return false;
        }
        rest = after;
    }
    true
}

/// Whether the part before the next slash is a name.
fn begins_with_name(bytes: &[u8]) -> bool
    ensures { result ≡ is_name (before_first is_slash bytes.now) }
{
    is_name(&bytes[..length_of_part(bytes)])
}

fn length_of_part(bytes: &[u8]) -> usize
    ensures length { result ≡ position_or_len is_slash bytes.now }
    ensures within { result ≤ length bytes.now }
{
    for (index, byte) in bytes.iter().enumerate() {
        if *byte == b'/' {
            return index;
        }
    }
    bytes.len()
}

pub(crate) fn is_name(name: &[u8]) -> bool
    ensures { result ≡ is_name name.now }
{
    !name.is_empty() && name != b".".as_slice() && name != b"..".as_slice()
}
