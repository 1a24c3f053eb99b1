//! What tests want. The text of each failure has to be proved, so there is one of each kind.
use std::process::Abort;

/// Asserts this.
pub fn expect(rt: &impl Abort, holds: bool) {
    assert!(rt; holds);
}

/// Asserts that what was found is what is wanted.
pub fn expect_eq<T: PartialEq + Drop>(rt: &impl Abort, found: T, wanted: T) {
    assert!(rt; found == wanted);
}
