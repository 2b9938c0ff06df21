ghost use Rattle.periodic.specs.Phases.{begun, due, sampled};
ghost use Rattle.std.specs.Prelude.{◌≡◌};

use planner::Timing;

/// What the periodic kind keeps of a row, before the samples of a slot.
#[derive(Clone, Copy, Debug, Default)]
pub struct Phase {
    /// How the row is refreshed.
    pub timing: Timing,
    /// The slots until its next sample, 0 in the slot of a sample.
    pub until: u16,
    /// The slots of work that its job has left, 0 without a job.
    pub left: u8,
}

impl PartialEq for Phase {
    ghost use Rattle.periodic.specs.Phases.{same_phase};
    ghost use Rattle.periodic.specs.Sames.{phase_partial_equivalence};

    ghost eq = { same_phase };

    ghost laws = { phase_partial_equivalence };

    // Whether all numbers kept of both rows are equal.
    fn eq(&self, other: &Phase) -> bool {
        self.timing == other.timing && self.until == other.until && self.left == other.left
    }
}

impl Eq for Phase {
    ghost use Rattle.periodic.specs.Sames.{phase_equivalence};

    ghost laws = { phase_equivalence };
}

impl Phase {
    // A row at a start: it is sampled at once.
    pub(crate) fn new(timing: &Timing) -> Phase
        ensures { result ≡ begun timing.now }
    {
        Phase {
            timing: *timing,
            until: 0,
            left: 0,
        }
    }

    // Takes this slot's sample if it is due, and says whether it is.
    pub(crate) fn sample(&mut self) -> bool
        ensures due { result ≡ due self.old }
        ensures taken { self.new ≡ sampled self.old }
    {
        if self.until == 0 {
            self.until = self.timing.period.saturating_sub(1);
            self.left = self.timing.work;
            true
        } else {
            self.until -= 1;
            false
        }
    }
}
