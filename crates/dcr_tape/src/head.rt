// The headers of parts.
ghost use Rattle.std.specs.Prelude.{◌≡◌, ◌↔◌, IsTrue};
ghost use Rattle.std.specs.Int.{w64, from_be_bytes};
ghost use Rattle.dcr_base.specs.Disk.{bytes_at};
ghost use Rattle.dcr_tape.specs.Tape.{name_text, zeros};

/// Whether this is the header of a part of width 12, whatever its digest.
pub(crate) fn is_new_head(head: &[u8; 64]) -> bool
    ensures { IsTrue result ↔ ((bytes_at head.now 0 8 ≡ name_text 2) × (bytes_at head.now 40 24 ≡ zeros 24)) }
{
    head[..8] == b"DCRTAPE\x02"[..] && head[40..] == [0; 24][..]
}

/// Whether a tape of version 1 begins with these bytes, whatever its digest, and renewed or not.
pub(crate) fn is_old_head(head: &[u8; 64]) -> bool
    ensures { IsTrue result ↔ ((bytes_at head.now 0 8 ≡ name_text 1) × (bytes_at head.now 49 15 ≡ zeros 15)) }
{
    head[..8] == b"DCRTAPE\x01"[..] && head[49..] == [0; 15][..]
}

/// The digest in a header.
pub(crate) fn digest_in(head: &[u8; 64]) -> [u8; 32]
    ensures { result ≡ bytes_at head.now 8 32 }
{
    let mut digest = [0; 32];
    digest.copy_from_slice(&head[8..40]);
    digest
}

/// Where the part begins that was renewed, as a tape of version 1 says.
pub(crate) fn start_in(head: &[u8; 64]) -> u64
    ensures { result ≡ from_be_bytes w64 (bytes_at head.now 41 8) }
{
    let mut bytes = [0; 8];
    bytes.copy_from_slice(&head[41..49]);
    u64::from_be_bytes(bytes)
}
