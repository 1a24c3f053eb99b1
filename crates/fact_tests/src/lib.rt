//! Tests of facts and of the shards that keep them.
#![tactic(auto)]

#[cfg(test)]
mod best_facts;
#[cfg(test)]
mod expect;
#[cfg(test)]
mod shards;
