ghost use Rattle.std.specs.Prelude.{◌≡◌, ◌-◌};
ghost use Rattle.strip.specs.Parts.{renewed};
ghost use Rattle.strip.specs.Positions.{resting};

use readings::Reading;

/// What the strip kind keeps of a row.
#[derive(Clone, Copy, PartialEq, Eq, Debug, Default)]
pub struct RowWork {
    /// Its work length, in slots.
    pub work: u8,
    /// The slots of work that its job has left, 0 without a job.
    pub left: u8,
}

impl RowWork {
    // A row at a start: no work is left.
    pub(crate) fn new(reading: &Reading) -> RowWork
        ensures { result ≡ resting reading.now }
    {
        RowWork {
            work: reading.work,
            left: 0,
        }
    }

    // Its work begins anew.
    pub(crate) fn renew(&mut self)
        ensures { self.new ≡ renewed self.old }
    {
        self.left = self.work;
    }

    // Runs for a slot.
    pub(crate) fn run(&mut self)
        ensures { self.new ≡ record self.old { left = self.old.left - 1 } }
    {
        self.left = self.left.saturating_sub(1);
    }
}
