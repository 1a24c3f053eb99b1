//! Tests of the program's one call, `run`, over ports in memory.
#![tactic(auto)]

#[cfg(test)]
mod checks;
#[cfg(test)]
mod commands_without_input;
#[cfg(test)]
mod expect;
#[cfg(test)]
mod failing_ports;
#[cfg(test)]
mod files_of_variants;
#[cfg(test)]
mod first_moves;
#[cfg(test)]
mod game_texts;
#[cfg(test)]
mod problems;
#[cfg(test)]
mod rules_told;
#[cfg(test)]
mod runs;
#[cfg(test)]
mod sessions;
#[cfg(test)]
mod stipulations;
#[cfg(test)]
mod strategies;
#[cfg(test)]
mod whole_answers;
