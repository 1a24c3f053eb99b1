//! Tests of the crates that read variants and their positions.
#![tactic(auto)]

#[cfg(test)]
mod compiled_words;
#[cfg(test)]
mod expect;
#[cfg(test)]
mod fens;
#[cfg(test)]
mod option_lines;
#[cfg(test)]
mod sections;
#[cfg(test)]
mod variants;
