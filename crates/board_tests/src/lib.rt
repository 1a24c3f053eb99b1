//! Tests of the crates that tell of one position: its squares and attacks, its key and its value, the texts of its
//! moves, and the position after each.
#![tactic(auto)]

#[cfg(test)]
mod attacks;
#[cfg(test)]
mod ends;
#[cfg(test)]
mod expect;
#[cfg(test)]
mod facts;
#[cfg(test)]
mod helpers;
#[cfg(test)]
mod keys;
#[cfg(test)]
mod lines_and_jumps;
#[cfg(test)]
mod move_texts;
#[cfg(test)]
mod named_moves;
#[cfg(test)]
mod next_positions;
#[cfg(test)]
mod piece_sets;
#[cfg(test)]
mod piece_values;
#[cfg(test)]
mod reaches;
#[cfg(test)]
mod samples;
#[cfg(test)]
mod sinks;
#[cfg(test)]
mod square_sets;
