//! Tests of the crates that play games and write of them: games and lines, strategies and their checker, proof texts,
//! selfmates and helpmates and their certificates.
#![tactic(auto)]

#[cfg(test)]
mod certificates;
#[cfg(test)]
mod expect;
#[cfg(test)]
mod game_lines;
#[cfg(test)]
mod games;
#[cfg(test)]
mod helpers;
#[cfg(test)]
mod proof_texts;
#[cfg(test)]
mod stipulations;
#[cfg(test)]
mod strategies;
#[cfg(test)]
mod verdicts;
