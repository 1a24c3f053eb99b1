//! Tests of the solvers of mates: solves by many workers over shards, and proof-number trees.
#![tactic(auto)]

#[cfg(test)]
mod expect;
#[cfg(test)]
mod helpers;
#[cfg(test)]
mod mirror;
#[cfg(test)]
mod solves;
#[cfg(test)]
mod trees;
