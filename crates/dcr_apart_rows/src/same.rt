// What a row gave, held against what it is to give. Each ends the test where both differ, and tells both and the row.
// A test calls these, since a call is checked in a small part of the time that a macro in its place takes.
use std::fmt::Debug;
use std::process::Abort;

pub(crate) fn same<T: PartialEq + Debug>(rt: &impl Abort, got: &T, want: &T, row: &str) {
    assert_eq!(rt; got, want, "{row}");
}

pub(crate) fn same_bytes(rt: &impl Abort, got: &[u8], want: &[u8], row: &str) {
    same(rt, &got, &want, row);
}
