//! Planners: from a list of readings to a period for each row.
#![tactic(auto)]

mod response;
/// How a row is refreshed.
pub mod timing;
/// The planners, which say it for each row of a list.
pub mod timings;

pub use timing::Timing;
pub use timings::Timings;
