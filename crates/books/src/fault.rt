ghost use Rattle.books.specs.Faults.{fault_content};
ghost use Rattle.readings.specs.Refusals.{content};
ghost use Rattle.std.specs.Prelude.{◌≡◌};

use readings::Refusal;

/// What is wrong with an answer for a slot, with the row, counted from 1.
#[derive(Clone, Copy, PartialEq, Eq, Debug)]
pub enum Fault {
    /// The row is sampled while its job is open, or run without a job that has work left, or the
    /// list lacks it.
    JobRule {
        /// The row, counted from 1.
        row: u8,
    },
    /// The row's age is above its validity.
    Stale {
        /// The row, counted from 1.
        row: u8,
    },
}

/// The steps of a slot in which a row may be at fault.
#[derive(Clone, Copy, PartialEq, Eq, Debug)]
pub enum Step {
    /// Step 1: the row is sampled.
    Sample,
    /// Step 2: the row is run.
    Run,
    /// Step 4: the row's age, which has grown, is judged.
    Judge,
}

impl Fault {
    /// The refusal of a fault in a slot, which is counted from 0: 11 for the job rule, 12 for a
    /// stale row.
    pub fn refusal(self, slot: u16) -> Refusal
        ensures { content result ≡ fault_content self slot }
    {
        match self {
            Fault::JobRule { row } => Refusal::JobRule { slot, row },
            Fault::Stale { row } => Refusal::Stale { slot, row },
        }
    }
}
