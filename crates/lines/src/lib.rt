//! The lines of a rehearsal script: pieces of a text, tokens, numbers and commands.
#![tactic(auto)]

/// The commands of a script.
pub mod command;
/// Decimal numbers of 1 to 5 digits.
pub mod number;
/// A text cut into pieces at a byte.
pub mod pieces;
#[cfg(test)]
mod tests;
/// The tokens of a line.
pub mod token;

pub use command::{CallLine, Command, PlanLine};
pub use pieces::Pieces;
pub use token::Token;
