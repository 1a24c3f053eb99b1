//! Tests of the crates that lead sessions: how lines are read and waited for, one search and one solve, depths and
//! mates that are told, and whole sessions in both dialects.
#![tactic(auto)]

#[cfg(test)]
mod cecp_sessions;
#[cfg(test)]
mod cecp_words;
#[cfg(test)]
mod depths;
#[cfg(test)]
mod engine_states;
#[cfg(test)]
mod expect;
#[cfg(test)]
mod helpers;
#[cfg(test)]
mod turns;
#[cfg(test)]
mod uci_sessions;
#[cfg(test)]
mod uci_words;
