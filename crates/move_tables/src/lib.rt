//! What each kind of a variant reaches from each square, as sets of squares that are made once for its rules.
#![tactic(auto)]

mod add;
mod build;
pub mod jump;
pub mod line;
mod make;
pub mod mode;
mod ray;
mod region;
pub mod spot;
pub mod squares;
pub mod tables;

pub use build::terms_of;
pub use jump::Jump;
pub use line::{Line, Passage};
pub use mode::Mode;
pub use region::region_set;
pub use spot::Spot;
pub use squares::{men, occupied};
pub use tables::MoveTables;
