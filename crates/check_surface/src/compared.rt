// What the tests compare by: a call costs less to prove than an assertion of its own.

use std::fmt::Debug;
use std::process::Abort;

/// Compares what was seen with what is expected.
pub fn compare<T: PartialEq + Debug + Copy>(rt: &impl Abort, seen: T, expected: T) {
    assert_eq!(rt; seen, expected);
}
