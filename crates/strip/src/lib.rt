//! Strips: a byte for each slot, laid by deferrable scheduling or given, closed to a loop, and
//! played.
#![tactic(auto)]

/// Closed strips.
pub mod closed;
mod closer;
mod closing;
mod kept;
/// Laying strips, and closing them.
pub mod laying;
mod mask;
/// Playing a closed strip.
pub mod player;
/// What a player keeps of a row.
pub mod work;

pub use closed::ClosedStrip;
pub use laying::LayingStrip;
pub use player::Player;
pub use work::RowWork;
