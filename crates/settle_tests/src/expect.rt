//! What tests want. The text of each failure has to be proved, so there is one of each kind.
use std::process::Abort;

/// Asserts that what was found is what is wanted.
pub fn expect_eq<T: PartialEq + Drop>(rt: &impl Abort, found: T, wanted: T) {
    assert!(rt; found == wanted);
}
