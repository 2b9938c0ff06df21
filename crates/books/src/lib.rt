//! The books: what is kept of each row from slot to slot, what a slot does to it, and the first
//! fault of a slot.
#![tactic(auto)]

/// The books of a list, and how a slot or a crossing changes them.
pub mod books;
/// What may be wrong with an answer for a slot.
pub mod fault;
/// What the books keep of a row.
pub mod row;

pub use books::Books;
pub use fault::{Fault, Step};
pub use row::{Job, Row};
