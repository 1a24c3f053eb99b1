//! The variants.
pub mod capablanca;
pub mod chess;
pub mod generals;
pub mod leapers;
pub mod shouse;
pub mod wide_chess;
pub mod xiangqi;
