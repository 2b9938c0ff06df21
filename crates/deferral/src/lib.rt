//! Deferrable scheduling in whole slots: the rules by which a row's jobs take their slots, and the
//! laying of a list of readings on slots.
#![tactic(auto)]

/// Laying a list.
pub mod laying;
mod row;
/// The span of a job.
pub mod span;

pub use laying::lay;
pub use span::Span;
