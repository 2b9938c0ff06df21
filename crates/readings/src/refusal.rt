ghost use Rattle.readings.specs.Refusals.{number, content, written};
ghost use Rattle.std.specs.Prelude.{◌≡◌, Some};

use std::fmt;

/// Why something is refused, and where. Rows count from 1; slots and blocks count from 0.
#[derive(Clone, Copy, PartialEq, Eq, Debug)]
pub enum Refusal {
    /// A list has no row, or more than 16.
    Count,
    /// A row's work length is not 1 to 255 slots, or its validity is not 2 to 4,095 slots, or is
    /// below its work length.
    Range {
        /// The row, counted from 1.
        row: u8,
    },
    /// A row's id is not 1 to 65,535, or a row above has it.
    Id {
        /// The row, counted from 1.
        row: u8,
    },
    /// A row's validity is below that of the row above.
    Order {
        /// The row, counted from 1.
        row: u8,
    },
    /// A row has no response time of at most half its validity.
    Response {
        /// The row, counted from 1.
        row: u8,
    },
    /// A strip has no slot, or more than 32,767.
    StripLength,
    /// A strip has too few free slots for the first job of a row.
    FirstJob {
        /// The row, counted from 1.
        row: u8,
    },
    /// A strip has too few free slots for a later job of a row.
    NextJob {
        /// The row, counted from 1.
        row: u8,
    },
    /// A strip does not repeat up to its limit.
    NoLoop,
    /// A strip from outside has numbers or slots out of range.
    Outside,
    /// An answer breaks the job rule: it samples a row whose job is open, runs a row that has no
    /// job with work left, or names a row that the list lacks.
    JobRule {
        /// The slot of the answer, counted from 0.
        slot: u16,
        /// The row, counted from 1.
        row: u8,
    },
    /// A row's age exceeds its validity.
    Stale {
        /// The slot in which the age grew past it, counted from 0.
        slot: u16,
        /// The row, counted from 1.
        row: u8,
    },
    /// A walk has neither a fault nor a repeat by its last instant, 32,767.
    NoRepeat,
    /// The board rests, and the call is for one that runs.
    Resting,
    /// The board runs, and the call is for one that rests.
    Running,
    /// A crossing waits already.
    CrossingWaits,
    /// A latency exceeds 4,095 slots.
    Latency,
    /// At no instant within the latency would a crossing keep every shared reading valid.
    NoInstant,
    /// The list in use has no reading of this id.
    UnknownId,
    /// A show file has a length that no show file has.
    FileLength,
    /// The sum of a block of a show file is not that of its bytes.
    BlockSum {
        /// The block, counted from 0.
        block: u8,
    },
    /// The kind or the number of a block of a show file is not what comes there.
    BlockHead {
        /// The block, counted from 0.
        block: u8,
    },
    /// A show file's count of blocks is not that of its blocks, or a byte past them is not 0.
    FileRest,
    /// A line of a script is malformed, too long or out of place.
    BadLine,
    /// A plan that a line names is not there, or not ready.
    NoPlan,
}

impl Refusal {
    /// Its number, from 1 to 25: each case has its own.
    pub fn number(&self) -> u8
        ensures { result ≡ number self.now }
    {
        match self {
            Refusal::Count => 1,
            Refusal::Range { .. } => 2,
            Refusal::Id { .. } => 3,
            Refusal::Order { .. } => 4,
            Refusal::Response { .. } => 5,
            Refusal::StripLength => 6,
            Refusal::FirstJob { .. } => 7,
            Refusal::NextJob { .. } => 8,
            Refusal::NoLoop => 9,
            Refusal::Outside => 10,
            Refusal::JobRule { .. } => 11,
            Refusal::Stale { .. } => 12,
            Refusal::NoRepeat => 13,
            Refusal::Resting => 14,
            Refusal::Running => 15,
            Refusal::CrossingWaits => 16,
            Refusal::Latency => 17,
            Refusal::NoInstant => 18,
            Refusal::UnknownId => 19,
            Refusal::FileLength => 20,
            Refusal::BlockSum { .. } => 21,
            Refusal::BlockHead { .. } => 22,
            Refusal::FileRest => 23,
            Refusal::BadLine => 24,
            Refusal::NoPlan => 25,
        }
    }
}

// `no` and the number, as an answer on a line has it.
impl fmt::Display for Refusal {
    ghost output = { λ r. Some (written (content r)) };

    fn fmt<W: fmt::Write>(&self, f: &mut fmt::Formatter<W>) -> fmt::Result {
        let number = self.number();
        write!(f, "no {number}")
    }
}
