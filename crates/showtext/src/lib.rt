//! Show files as text: what one holds, and the one that a plan script makes.
#![tactic(auto)]

/// A show file with what is told of it.
pub mod made;
mod plan;
/// Show files that plan scripts make.
pub mod storing;
mod strips;
/// What show files hold.
pub mod telling;
#[cfg(test)]
mod tests;
mod unmade;
mod written;

pub use made::Stored;
pub use storing::{LONGEST_SCRIPT, stored};
pub use telling::told;
