//! One search for the first repeat of a stepping thing, for every kind of it.
#![tactic(auto)]

/// What a search finds.
pub mod found;
/// The search.
pub mod search;
/// The interface of a stepping thing.
pub mod stepper;

pub use found::{NoRepeat, Repeat};
pub use search::first_repeat;
pub use stepper::Stepper;
