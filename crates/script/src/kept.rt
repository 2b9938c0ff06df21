ghost use Rattle.script.specs.Sinks.{AnswersText, appended};
ghost use Rattle.std.specs.Prelude.{[], IfOk};

use crate::rehearsal::rehearse;
use crate::reply::LineReply;
use crate::sink::{Sink, Stopped};
use std::alloc::{AllocError, Global};

// Keeps all replies, first to last.
#[derive(Drop)]
struct Kept {
    replies: Vec<LineReply>,
}

impl Sink for Kept {
    ghost use Rattle.script.specs.Sinks.{appended};
    ghost use Rattle.script.specs.declared.reply.LineReply.{LineReply};
    ghost use Rattle.std.specs.Prelude.{List};

    type Error = AllocError;

    ghost Got = { List LineReply };

    ghost got = { λ s. s.replies.items };

    ghost with_one = { appended };

    fn take(&mut self, reply: LineReply) -> Result<(), AllocError> {
        self.replies.push(reply)?;
        Ok(())
    }
}

// Memory runs out: for the reading of a plan, or for a reply.
fn error_of(stopped: Stopped<AllocError>) -> AllocError {
    match stopped {
        Stopped::Memory(e) => e,
        Stopped::Sink(e) => e,
    }
}

/// The replies to a whole script, first to last. Fails only where memory runs out.
pub fn replies_to(heap: Global, text: &[u8]) -> Result<Vec<LineReply>, AllocError>
    ensures { IfOk result (λ replies. AnswersText appended [] replies.items text.now) }
{
    let mut kept = Kept {
        replies: Vec::new(heap),
    };
    rehearse(heap, text, &mut kept).map_err(error_of)?;
    Ok(kept.replies)
}
