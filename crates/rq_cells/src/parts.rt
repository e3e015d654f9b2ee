//! Arrays of the bytes at a place.
ghost use Rattle.std.specs.Prelude.{◌≡◌, ◌+◌, ◌≤◌, length, take, drop};

/// The `N` bytes from a place on.
pub(crate) fn part<const N: usize>(bytes: &[u8], at: usize) -> [u8; N]
    requires { at + N ≤ length bytes.now }
    ensures { result ≡ take N (drop at bytes.now) }
{
    let mut part = [0; N];
    part.copy_from_slice(&bytes[at..at + N]);
    part
}
