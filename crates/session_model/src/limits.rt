//! How far searches go, and which scores stand for mates. Definitions and the code of both protocols follow from these.

/// The last depth of a search.
pub const MOST_DEPTH: u64 = 64;

/// The last depth of a CECP search that has no deadline.
pub const SHORT_DEPTH: u64 = 4;

/// The most moves of a mate that is looked for.
pub const MOST_MATE: u32 = 100;

/// The least score, either way, that stands for a mate.
pub const LEAST_MATE: u32 = 31_000;

/// What a win is worth that stands already. A win that is some plies away is worth as much less.
pub const WON: u32 = 32_000;
