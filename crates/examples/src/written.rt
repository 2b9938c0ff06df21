use crate::ending::Ending;
use board::call::Grant;
use readings::Refusal;
use std::fmt;

/// A refusal as it is written: its number, for a fault with its slot and row, for a row that has no
/// response time, or no room for a job, with the row.
#[derive(Clone, Copy)]
pub struct WrittenRefusal(
    /// The refusal.
    pub Refusal,
);

impl fmt::Display for WrittenRefusal {
    fn fmt<W: fmt::Write>(&self, f: &mut fmt::Formatter<W>) -> fmt::Result {
        let refusal = self.0;
        write!(f, "{refusal}")?;
        match refusal {
            Refusal::JobRule { slot, row } | Refusal::Stale { slot, row } => write!(
                f,
                ", slot {slot}, row {row}"
            ),
            Refusal::Response { row } | Refusal::FirstJob { row } | Refusal::NextJob { row } => {
                write!(f, ", row {row}")
            }
            _ => Ok(()),
        }
    }
}

/// The ending of an example, or its refusal, as it is written.
#[derive(Clone, Copy)]
pub struct WrittenEnding(
    /// The ending, or the refusal.
    pub Result<Ending, Refusal>,
);

impl fmt::Display for WrittenEnding {
    fn fmt<W: fmt::Write>(&self, f: &mut fmt::Formatter<W>) -> fmt::Result {
        match self.0 {
            Ok(ending) => write!(f, "{ending}"),
            Err(refusal) => write!(f, "{}", WrittenRefusal(refusal)),
        }
    }
}

/// The reply of a board to a call, as it is written.
#[derive(Clone, Copy)]
pub struct WrittenReply(
    /// What the board grants, or its refusal.
    pub Result<Grant, Refusal>,
);

impl fmt::Display for WrittenReply {
    fn fmt<W: fmt::Write>(&self, f: &mut fmt::Formatter<W>) -> fmt::Result {
        match self.0 {
            Ok(Grant::Started(it)) => write!(f, "mark {}, length {}", it.mark, it.length),
            Ok(Grant::Ticked(it)) => {
                let crossed = if it.crossed { ", crossed" } else { "" };
                write!(
                    f,
                    "mask {}, run {}, shown {}{crossed}",
                    it.sampled, it.run, it.shown
                )
            }
            Ok(Grant::Switched(0)) => write!(f, "crossed"),
            Ok(Grant::Switched(1)) => write!(f, "crosses in 1 tick"),
            Ok(Grant::Switched(ticks)) => write!(f, "crosses in {ticks} ticks"),
            Ok(Grant::Shown(it)) => {
                let value = if it.value { "value" } else { "no value" };
                write!(f, "{value}, age {}, validity {}", it.age, it.validity)
            }
            Ok(Grant::Stopped) => write!(f, "stopped"),
            Err(refusal) => write!(f, "{}", WrittenRefusal(refusal)),
        }
    }
}

/// Whether what came is what is expected, as it is written.
#[derive(Clone, Copy)]
pub struct AsExpected(
    /// Whether it is.
    pub bool,
);

impl fmt::Display for AsExpected {
    fn fmt<W: fmt::Write>(&self, f: &mut fmt::Formatter<W>) -> fmt::Result {
        let words = if self.0 {
            "as expected"
        } else {
            "NOT as expected"
        };
        write!(f, "{words}")
    }
}
