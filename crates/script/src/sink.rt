ghost use Rattle.script.specs.Stops.{IfMemory};
ghost use Rattle.std.specs.Prelude.{◌≡◌, IfErr, OnErr, OnOk};

use crate::reply::LineReply;
use std::alloc::AllocError;

/// What takes replies, one after the other. Its kind says what it has got of them, and how one more
/// changes that.
pub trait Sink {
    ghost use Rattle.script.specs.declared.reply.LineReply.{LineReply};

    /// Why a reply is not taken.
    type Error: Drop;

    // what a sink has got so far, as far as it says
    ghost Got: { Type 0 };

    ghost got: { Self → Got };

    // what it has got once it has taken one reply more
    ghost with_one: { Got → LineReply → Got };

    /// Takes one reply. Where it fails it has got nothing of it.
    fn take(&mut self, reply: LineReply) -> Result<(), Self::Error>
        ensures ok { OnOk result (got self.new ≡ with_one (got self.old) reply) }
        ensures err { OnErr result (got self.new ≡ got self.old) };
}

/// Why a script is not answered to its end.
#[derive(Drop)]
pub enum Stopped<E> {
    /// There is no memory for one more reading of a plan.
    Memory(AllocError),
    /// The sink fails.
    Sink(E),
}

impl<E> From<AllocError> for Stopped<E> {
    ghost use Rattle.script.specs.declared.sink.Stopped.TheVariants.{Memory};

    ghost from_gives = { λ e stopped. stopped ≡ Memory e };

    /// Memory runs out.
    fn from(e: AllocError) -> Stopped<E> {
        Stopped::Memory(e)
    }
}

// Hands a sink one reply.
pub(crate) fn give<S: Sink>(sink: &mut S, reply: LineReply) -> Result<(), Stopped<S::Error>>
    ensures ok { OnOk result (S.got sink.new ≡ S.with_one (S.got sink.old) reply) }
    ensures err { OnErr result (S.got sink.new ≡ S.got sink.old) }
    ensures sink { IfErr result (λ e. IfMemory e ⊥) }
{
    sink.take(reply).map_err(Stopped::Sink)
}
