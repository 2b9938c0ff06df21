//! Readings, the list of them, and the refusals of the whole product.
#![tactic(auto)]

/// The list of readings.
pub mod list;
/// A reading, and the numbers of one before they are judged.
pub mod reading;
/// The refusals.
pub mod refusal;

pub use list::Readings;
pub use reading::{Proposal, Reading};
pub use refusal::Refusal;
