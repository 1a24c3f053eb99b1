//! The facts that workers share, as a pure machine: each of their atomic steps is one event, and every fact that
//! allowed events bring into the store is true.
#![tactic(auto)]

mod best_fact;
mod event;
mod frame;
mod packed_fact;
mod sharding;
mod steps;
mod store;

pub use best_fact::{
    as_good_facts_serve_as_much, best, best_is_the_first_of_the_least, is_as_good, serves, sooner,
};
pub use event::{Event, Reply};
pub use forced_wins::Fact;
pub use frame::Frame;
pub use packed_fact::{Claim, PackedFact};
pub use sharding::{part_of, shard_of, shard_of_hash};
pub use steps::step;
pub use store::{FactList, FactLists, Known, KnownList, Store};
