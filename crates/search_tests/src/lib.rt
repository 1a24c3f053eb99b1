//! Tests of the crates that search for the value of a game: by one worker, and by many with limits and ports.
#![tactic(auto)]

#[cfg(test)]
mod expect;
#[cfg(test)]
mod roots;
#[cfg(test)]
mod searches;
