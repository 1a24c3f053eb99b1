//! The version.

/// The version of the program and of the library.
pub const VERSION: &str = "1.0.0";
