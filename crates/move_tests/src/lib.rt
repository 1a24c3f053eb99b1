//! Tests of the crates that give the moves of a position.
#![tactic(auto)]

#[cfg(test)]
mod boards;
#[cfg(test)]
mod expect;
#[cfg(test)]
mod helpers;
#[cfg(test)]
mod legal;
#[cfg(test)]
mod pawns;
#[cfg(test)]
mod pieces;
#[cfg(test)]
mod pinned;
#[cfg(test)]
mod specials;
