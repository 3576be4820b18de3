// Parts of a text at their places.
ghost use Rattle.std.specs.Prelude.{◌≡◌, ◌+◌, ◌≤◌, length, take, drop};
ghost use Rattle.dcr_base.specs.Disk.{written};

/// Writes these bytes from a place on. No other byte changes.
pub(crate) fn put(bytes: &mut [u8], at: usize, part: &[u8])
    requires { at + length part.now ≤ length bytes.old }
    ensures { bytes.new ≡ written at part.now bytes.old }
{
    bytes[at..at + part.len()].copy_from_slice(part);
}

/// The `N` bytes from a place on.
pub(crate) fn part<const N: usize>(bytes: &[u8], at: usize) -> [u8; N]
    requires { at + N ≤ length bytes.now }
    ensures { result ≡ take N (drop at bytes.now) }
{
    let mut found = [0u8; N];
    'bytes: for i in 0..N {
        found[i] = bytes[at + i];
    }
    found
}
