//! What tests want. The text of each failure has to be proved, so there is one of each kind.
use std::fmt::Debug;
use std::process::Abort;

/// Asserts this.
pub fn expect(rt: &impl Abort, holds: bool) {
    assert!(rt; holds);
}

/// Asserts this of what is named.
pub fn expect_of<N: Debug>(rt: &impl Abort, name: &N, holds: bool) {
    assert!(rt; holds, "{name:?}");
}
