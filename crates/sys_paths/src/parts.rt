//! The parts of a path, between its slashes.

ghost use Rattle.std.specs.Prelude.{◌≡◌, ◌+◌, ◌≤◌, drop, length, IfSome};
ghost use Rattle.lego_base.specs.Pieces.{piece};
ghost use Rattle.linux_model.specs.Paths.{is_root_part};
ghost use Rattle.sys_paths.specs.Parts.{first_part, leads_to, way_by};

/// The first part of a path that is a name and doesn't lead from the root to the root.
#[derive(Clone, Copy, Debug, PartialEq, Eq)]
pub(crate) struct FirstName {
    /// The first byte of the part, from 0.
    pub start: usize,
    /// Bytes of the part.
    pub len: usize,
    /// Whether no part follows.
    pub is_last: bool,
}

/// The first name of a path; none where it leads to the root.
pub(crate) fn first_name(path: &[u8]) -> Option<FirstName>
    ensures way { way_by result path.now ≡ leads_to path.now }
    ensures within { IfSome result (λ name. name.start + name.len ≤ length path.now) }
{
    let mut start = 0;
    while start <= path.len() {
        let len = first_part(from(path, start));
        if !is_root_part(piece(path, start, len)) {
            return Some(FirstName {
                start,
                len,
                is_last: start + len == path.len(),
            });
        }
        start += len + 1;
    }
    None
}

// The bytes starting at one.
fn from(bytes: &[u8], start: usize) -> &[u8]
    requires { start ≤ length bytes.now }
    ensures { result.now ≡ drop start bytes.now }
{
    &bytes[start..]
}

// `len` bytes starting at one.
pub(crate) fn piece(bytes: &[u8], start: usize, len: usize) -> &[u8]
    requires { start + len ≤ length bytes.now }
    ensures { result.now ≡ piece bytes.now start len }
{
    &bytes[start..start + len]
}

// How many bytes stand before the first slash, or in all.
fn first_part(path: &[u8]) -> usize
    ensures part { result ≡ first_part path.now }
    ensures within { result ≤ length path.now }
{
    let mut len = 0;
    while len < path.len() && path[len] != b'/' {
        len += 1;
    }
    len
}

// Whether a part names the root where it is in the root.
fn is_root_part(part: &[u8]) -> bool
    ensures { result ≡ is_root_part part.now }
{
    match part {
        [] => true,
        [a] => *a == b'.',
        [a, b] => *a == b'.' && *b == b'.',
        _ => false,
    }
}
