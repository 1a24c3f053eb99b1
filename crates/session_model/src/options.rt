//! The options of UCI: the name of each, and the default and the range of those that are numbers. What `uci` prints,
//! how `setoption` is read and what a session begins with follow from these.

/// How many workers search.
pub const THREADS: &[u8] = b"Threads";

/// The number of workers where none is set.
pub const DEFAULT_THREADS: u32 = 1;

/// The fewest workers.
pub const LEAST_THREADS: u32 = 1;

/// The most workers.
pub const MOST_THREADS: u32 = 64;

/// How many MiB the transposition table has.
pub const HASH: &[u8] = b"Hash";

/// The MiB of hints where none are set.
pub const DEFAULT_HASH: u32 = 16;

/// The fewest MiB of hints.
pub const LEAST_HASH: u32 = 1;

/// The most MiB of hints.
pub const MOST_HASH: u32 = 1024;

/// How many facts of mates a shard keeps.
pub const MATE_FACTS: &[u8] = b"MateFacts";

/// The facts of a shard where no number is set.
pub const DEFAULT_MATE_FACTS: u32 = 4096;

/// The fewest facts of a shard.
pub const LEAST_MATE_FACTS: u32 = 16;

/// The most facts of a shard.
pub const MOST_MATE_FACTS: u32 = 65536;

/// The file of variants that are added to those that are built in.
pub const VARIANT_PATH: &[u8] = b"VariantPath";

/// The value of `VariantPath` that names no file, which is its default.
pub const NO_FILE: &[u8] = b"<empty>";

/// The variant that is played.
pub const UCI_VARIANT: &[u8] = b"UCI_Variant";
