//! In which shard the facts of a repeat stand: by its key.
ghost use Rattle.std.specs.Prelude.{◌≡◌, ◌<◌, ◌^◌};
ghost use Rattle.mate_core.specs.Hash as Hash;

use position_key::key_of_repeat;
use rules_model::Repeat;

/// The number of the shard for facts of the repeat, among so many shards.
pub fn shard_of(r: &Repeat, shards: u32) -> u32
    requires some { 0 < shards }
    ensures is { result ≡ Hash.shard_of r.now shards }
    ensures below { result < shards }
{
    shard_of_hash(key_of_repeat(r), shards)
}

/// The number of the shard for facts of a repeat with this key, among so many shards.
pub fn shard_of_hash(hash: u64, shards: u32) -> u32
    requires some { 0 < shards }
    ensures is { result ≡ Hash.shard_of_hash hash shards }
    ensures below { result < shards }
{
    part_of(hash >> 32, shards)
}

/// The place of a 32-bit number among so many places, which take equal parts of all 32-bit numbers.
pub fn part_of(x: u64, places: u32) -> u32
    requires some { 0 < places }
    requires small { x < 2 ^ 32 }
    ensures is { result ≡ Hash.part_of x places }
    ensures below { result < places }
{
    ((x * u64::from(places)) >> 32) as u32
}
