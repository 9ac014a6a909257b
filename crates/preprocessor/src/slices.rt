//! Parts of slices.

ghost use Rattle.std.specs.Prelude.{◌≡◌, ◌≤◌, drop, length, take};

/// The first `n` bytes.
pub fn front(bytes: &[u8], n: usize) -> &[u8]
    requires { n ≤ length bytes.now }
    ensures { result.now ≡ take n bytes.now }
{
    &bytes[..n]
}

/// The bytes after the first `n`.
pub fn after(bytes: &[u8], n: usize) -> &[u8]
    requires { n ≤ length bytes.now }
    ensures { result.now ≡ drop n bytes.now }
{
    &bytes[n..]
}
