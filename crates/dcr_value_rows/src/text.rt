// Numbers as texts, from outside.
use crate::same::{same, same_bytes};
use dcr_text::{decimal, read_decimal};
use std::test::Fail;

// Texts, and the numbers that they are, if any.
const ROWS: [(&[u8], Option<u64>); 22] = [
    (b"0", Some(0)),
    (b"7", Some(7)),
    (b"10", Some(10)),
    (b"99", Some(99)),
    (b"1024", Some(1024)),
    (b"4294967296", Some(4294967296)),
    (b"9999999999999999999", Some(9999999999999999999)),
    (b"18446744073709551615", Some(18446744073709551615)),
    (b"", None),
    (b"00", None),
    (b"01", None),
    (b"+1", None),
    (b"-1", None),
    (b"-0", None),
    (b" 1", None),
    (b"1 ", None),
    (b"1_0", None),
    (b"0x1", None),
    (b"18446744073709551616", None),
    (b"99999999999999999999", None),
    (b"184467440737095516150", None),
    (b"1\xff", None),
];

#[test]
fn numbers_and_their_texts(rt: HostRuntime) -> Result<(), Fail> {
    let mut found = Vec::new(rt.alloc());
    let mut wanted = Vec::new(rt.alloc());
    for (text, number) in ROWS {
        same(&rt, &read_decimal(text), &number, "a text");
        if let Some(number) = number {
            found.push(b' ')?;
            decimal(number, &mut found)?;
            wanted.push(b' ')?;
            wanted.extend_from_slice(text)?;
        }
    }
    same_bytes(&rt, found.as_slice(), wanted.as_slice(), "numbers");
    Ok(())
}
