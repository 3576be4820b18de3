ghost use Rattle.std.specs.Prelude.{◌≡◌, ◌≤◌, ◌++◌, drop, length, OnOk, OnErr};
ghost use Rattle.dcr_base.specs.Disk.{bytes_at, written};

use std::alloc::AllocError;

/// Writes a piece over bytes in memory, from an offset within them on, and behind their end. Where there is no memory
/// for what goes behind the end, they are as they were.
pub fn write_over(bytes: &mut Vec<u8>, at: usize, piece: &[u8]) -> Result<(), AllocError>
    requires { at ≤ length bytes.old.items }
    ensures written { OnOk result (bytes.new.items ≡ written at piece.now bytes.old.items) }
    ensures kept { OnErr result (bytes.new.items ≡ bytes.old.items) }
{
    let over = piece.len().min(bytes.len() - at);
    bytes.extend_from_slice(&piece[over..])?;
    bytes[at..at + over].copy_from_slice(&piece[..over]);
    Ok(())
}

/// Moves the bytes in memory from an offset on into the front of `buf`, and answers how many: as many as `buf` and the bytes
/// from there on both have.
pub fn read_from(bytes: &[u8], at: u64, buf: &mut [u8]) -> usize
    ensures count { result ≡ length (bytes_at bytes.now at (length buf.old)) }
    ensures moved { buf.new ≡ bytes_at bytes.now at (length buf.old) ++ drop result buf.old }
{
    if at > bytes.len() as u64 {
        return 0;
    }
    let rest = &bytes[at as usize..];
    let n = rest.len().min(buf.len());
    buf[..n].copy_from_slice(&rest[..n]);
    n
}
