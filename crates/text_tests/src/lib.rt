//! Tests of the crates that read text, of the ports that it comes through, and of what the threads of a search share.
#![tactic(auto)]

#[cfg(test)]
mod betza_words;
#[cfg(test)]
mod command_words;
#[cfg(test)]
mod expect;
#[cfg(test)]
mod hints;
#[cfg(test)]
mod locks;
#[cfg(test)]
mod ports;
#[cfg(test)]
mod sections;
#[cfg(test)]
mod watches;
