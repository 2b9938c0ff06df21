//! The board: it runs an accepted plan slot by slot, shows how old a reading is, and crosses to
//! another plan at an instant that keeps every shared reading valid.
#![tactic(auto)]

/// The board and its calls.
pub mod board;
/// The calls of a board as values, and what each grants.
pub mod call;
mod run;
mod slot;
mod waiting;

pub use board::Board;
