//! Tests of suites of mate problems.
#![tactic(auto)]

#[cfg(test)]
mod expect;
#[cfg(test)]
mod suites;
