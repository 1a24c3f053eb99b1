//! Tests of what settles a position: moves that may check or leave no step and no leap, ends, the search over facts,
//! and trees.
#![tactic(auto)]

#[cfg(test)]
mod checks;
#[cfg(test)]
mod expect;
#[cfg(test)]
mod facts;
#[cfg(test)]
mod helpers;
#[cfg(test)]
mod replies;
#[cfg(test)]
mod settled;
#[cfg(test)]
mod trees;
