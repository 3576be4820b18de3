ghost use Rattle.std.specs.Prelude.{◌≡◌, ◌↔◌, ℕ, ◌+◌, ◌*◌, ◌-◌, ◌<◌, ◌≤◌, ◌^◌, ◌++◌, decimal, length, slice_index_or, vec_len, vec_capacity, IsOk, IsTrue, OnOk, OnErr};
ghost use Rattle.std.specs.Str.Parse.{AllDigits, digits_value};

use dcr_set::NoMemory;
use itoa::Buffer;

/// Adds the decimal form of a number to `out`. Where memory runs out, `out` is as it was; where `out` has
/// room for it already, none is wanted.
pub fn decimal(n: u64, out: &mut Vec<u8>) -> Result<(), NoMemory>
    ensures added { OnOk result (out.new.items ≡ out.old.items ++ decimal n) }
    ensures unchanged { OnErr result (out.new.items ≡ out.old.items) }
    ensures reserved { vec_len out.old + length (decimal n) ≤ vec_capacity out.old → IsOk result }
{
    out.extend_from_slice(Buffer::new().format(n).as_bytes())?;
    Ok(())
}

/// The number whose decimal form the bytes are. None exactly where they are that of no number below
/// 2^64: they are empty, or have another byte than a digit, a leading zero, or a number too large.
pub fn read_decimal(bytes: &[u8]) -> Option<u64>
    ensures { (n : ℕ) → (result ≡ Some n) ↔ ((n < 2 ^ 64) × (bytes.now ≡ decimal n)) }
{
    if !begins_as_decimal(bytes) {
        return None;
    }
    read_digits(bytes)
}

// Whether there is a byte, and no zero before another one.
fn begins_as_decimal(bytes: &[u8]) -> bool
    ensures { IsTrue result ↔ ((0 < length bytes.now) × (slice_index_or bytes.now 0 0 ≡ 48 → length bytes.now ≡ 1)) }
{
    if bytes.is_empty() {
        return false;
    }
    bytes[0] != b'0' || bytes.len() == 1
}

// The number that digits write, one by one. None exactly where a byte is no digit or the number is too large.
fn read_digits(bytes: &[u8]) -> Option<u64>
    ensures { (n : ℕ) → (result ≡ Some n) ↔ (AllDigits 10 bytes.now × (digits_value 10 bytes.now ≡ n) × (n < 2 ^ 64)) }
{
    let mut number = 0;
    for byte in bytes {
        number = with_digit(number, *byte)?;
    }
    Some(number)
}

// The number with one digit behind its own.
fn with_digit(number: u64, byte: u8) -> Option<u64>
    ensures { (n : ℕ) → (result ≡ Some n) ↔ (((48 ≤ byte) × (byte ≤ 57)) × (number * 10 + (byte - 48) ≡ n) × (n < 2 ^ 64)) }
{
    if byte < b'0' || byte > b'9' {
        return None;
    }
    number.checked_mul(10)?.checked_add(u64::from(byte - b'0'))
}
