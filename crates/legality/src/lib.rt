//! The legal moves of a position, for the rules of every variant.
#![tactic(auto)]

mod any_sink;
mod asked;
mod asked_sink;
mod asked_squares;
mod candidates;
mod capture;
mod count_sink;
mod early_end;
mod flag;
mod forced_capture;
mod list;
mod list_sink;
mod make_move;
mod mobile;
mod move_filter;
mod move_gen;
mod pin_info;
mod pin_squares;
mod queries;
mod sorting;

pub use asked::Asked;
pub use capture::captures;
pub use early_end::early_end_with;
pub use list::legal_moves;
pub use make_move::{apply, apply_on, apply_with, king_attacked_with};
pub use move_gen::MoveGen;
pub use queries::{
    any_legal, end_where, free, gives_check, gives_check_with, is_legal, is_legal_with, own_end,
};
