// What a row gave, held against what it is to give. It ends the test where both differ, and tells both and the row.
// A test calls this, since a call is checked in a small part of the time that a macro in its place takes.
use std::fmt::Debug;
use std::process::Abort;

pub(crate) fn same<T: PartialEq + Debug>(rt: &impl Abort, got: &T, want: &T, row: &str) {
    assert_eq!(rt; got, want, "{row}");
}
