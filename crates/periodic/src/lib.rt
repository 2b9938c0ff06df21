//! The periodic kind of policy: each row is sampled every so many slots, and the lowest row with
//! work left runs.
#![tactic(auto)]

/// The policy.
pub mod periodic;
/// What it keeps of a row.
pub mod phase;

pub use periodic::Periodic;
