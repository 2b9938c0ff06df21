//! The rehearsal script: what each of its lines does, and how a whole script is answered.
#![tactic(auto)]

/// The second phase of a script.
pub mod calls;
/// The first phase of a script.
pub mod drafts;
/// The replies to a whole script, kept.
pub mod kept;
/// A plan: a list, and a policy for it.
pub mod plan;
/// A whole script.
pub mod rehearsal;
/// The lines of output.
pub mod reply;
/// Where the replies to a script go.
pub mod sink;
/// The strips of plans.
pub mod strips;

pub use calls::Calls;
pub use drafts::Drafts;
pub use kept::replies_to;
pub use plan::{Plan, Planner};
pub use rehearsal::{LONGEST_SCRIPT, rehearse};
pub use reply::LineReply;
pub use sink::{Sink, Stopped};
pub use strips::StripMemory;
