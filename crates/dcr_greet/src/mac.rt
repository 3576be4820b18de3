ghost use Rattle.std.specs.Prelude.{◌≡◌, ◌↔◌, IsTrue, length};
ghost use Rattle.dcr_greet.specs.Hmac.{crossed, key_block, hmac};

use crate::places::put;
use sha2::{Digest, Sha256};

/// The HMAC-SHA-256 of a message under a key, which may have any number of bytes. Takes no memory.
pub fn hmac(key: &[u8], message: &[u8]) -> [u8; 32]
    ensures { result ≡ hmac key.now message.now }
{
    let block = key_block(key);
    let mut inner = Sha256::new();
    inner.update(crossed(&block, 0x36));
    inner.update(message);
    let mut outer = Sha256::new();
    outer.update(crossed(&block, 0x5c));
    outer.update(inner.finalize());
    outer.finalize()
}

// The key as a block: a longer one by its digest, with zeros behind it.
fn key_block(key: &[u8]) -> [u8; 64]
    ensures { result ≡ key_block key.now }
{
    let mut block = [0; 64];
    if key.len() <= 64 {
        put(&mut block, 0, key);
    } else {
        put(&mut block, 0, &Sha256::digest(key));
    }
    block
}

// The block, each byte of it crossed with this one.
fn crossed(block: &[u8; 64], byte: u8) -> [u8; 64]
    ensures { result ≡ crossed byte block.now }
{
    let mut made = [0; 64];
    'bytes: for i in 0..64 {
        made[i] = block[i] ^ byte;
    }
    made
}

/// Whether the bytes are the same. All are compared, wherever they differ.
pub(crate) fn are_same(one: &[u8; 32], other: &[u8; 32]) -> bool
    ensures { IsTrue result ↔ (one.now ≡ other.now) }
{
    let mut differing = 0u8;
    'bytes: for i in 0..32 {
        differing |= one[i] ^ other[i];
    }
    differing == 0
}
