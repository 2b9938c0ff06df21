//! Show files: a closed strip as bytes, stored and read.
#![tactic(auto)]

mod block;
mod head;
/// Reading show files.
pub mod reading;
mod slots;
/// Storing show files.
pub mod storing;
#[cfg(test)]
mod tests;
mod unused;

pub use reading::read;
pub use storing::{file_length, store};
