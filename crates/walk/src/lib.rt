//! The walk, which accepts a policy for a list of readings or refuses it, and the test for a
//! crossing to a plan that was accepted.
#![tactic(auto)]

mod finishes;
/// The accepted plan: how a walk comes to it, and the test for a crossing to it.
pub mod plan;
mod walker;

pub use plan::Accepted;
