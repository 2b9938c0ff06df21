//! What a policy is, for every kind of it, and the bank, which holds two.
#![tactic(auto)]

/// Comparisons of any two policies by their answers.
pub mod agree;
/// The bank.
pub mod bank;
/// The interface of a policy.
pub mod policy;

pub use agree::{copies_agree, same_answers};
pub use bank::Bank;
pub use policy::Policy;
