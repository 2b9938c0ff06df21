ghost use Rattle.board.specs.Log.{reply_of};
ghost use Rattle.readings.specs.Refusals.{refusal_of};
ghost use Rattle.script.specs.Replies.{board_said, is_refused, plan_said, said_of};
ghost use Rattle.script.specs.Written.{written};
ghost use Rattle.std.specs.Prelude.{◌≡◌, Some};

use board::call::Grant;
use readings::Refusal;
use std::fmt;

/// What one line of output says.
#[derive(Clone, Copy, PartialEq, Eq, Debug)]
pub enum LineReply {
    /// What the line of a plan asks for is done.
    Done,
    /// A call of the board is granted.
    Granted(Grant),
    /// The line of a plan or a call of the board is refused.
    Refused(Refusal),
}

impl LineReply {
    /// Whether this is a refusal.
    pub fn is_refused(&self) -> bool
        ensures { result ≡ is_refused (said_of self.now) }
    {
        matches!(self, LineReply::Refused(_))
    }
}

impl From<Result<(), Refusal>> for LineReply {
    ghost from_gives = { λ drafted reply. said_of reply ≡ plan_said (refusal_of drafted) };

    /// The reply to the line of a plan.
    fn from(drafted: Result<(), Refusal>) -> LineReply {
        match drafted {
            Ok(()) => LineReply::Done,
            Err(refusal) => LineReply::Refused(refusal),
        }
    }
}

impl From<Result<Grant, Refusal>> for LineReply {
    ghost from_gives = { λ answer reply. said_of reply ≡ board_said (reply_of (λ g. g) answer) };

    /// The reply to a call of the board.
    fn from(answer: Result<Grant, Refusal>) -> LineReply {
        match answer {
            Ok(grant) => LineReply::Granted(grant),
            Err(refusal) => LineReply::Refused(refusal),
        }
    }
}

/// The line as it is written, with the byte that ends it.
impl fmt::Display for LineReply {
    ghost output = { λ r. Some (written (said_of r)) };

    fn fmt<W: fmt::Write>(&self, f: &mut fmt::Formatter<W>) -> fmt::Result {
        match self {
            LineReply::Done => writeln!(f, "ok"),
            LineReply::Granted(Grant::Started(it)) => writeln!(
                f,
                "start {} {}",
                it.mark, it.length
            ),
            LineReply::Granted(Grant::Ticked(it)) => writeln!(
                f,
                "{} {} {} {}",
                it.sampled,
                it.run,
                it.shown,
                u8::from(it.crossed)
            ),
            LineReply::Granted(Grant::Switched(ticks)) => writeln!(f, "switch {ticks}"),
            LineReply::Granted(Grant::Shown(it)) if it.value => {
                writeln!(f, "show {} {}", it.age, it.validity)
            }
            LineReply::Granted(Grant::Shown(_)) => writeln!(f, "show none"),
            LineReply::Granted(Grant::Stopped) => writeln!(f, "ok"),
            LineReply::Refused(refusal) => writeln!(f, "{refusal}"),
        }
    }
}
