ghost use Rattle.std.specs.Prelude.{◌<◌};

use policy::Policy;
use walk::Accepted;

// A crossing to a plan that waits, so many ticks ahead.
#[derive(Drop)]
pub(crate) struct Waiting<P: Policy> {
    pub(crate) ticks: u16,
    pub(crate) plan: Accepted<P>,
    ghost some: { 0 < ticks },
}
