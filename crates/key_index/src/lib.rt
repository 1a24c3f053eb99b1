//! Keys in the order in which they came, and where each stands: by chains in a hash index.
#![tactic(auto)]

mod key_index;

pub use key_index::KeyIndex;
