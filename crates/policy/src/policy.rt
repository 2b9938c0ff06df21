ghost use Rattle.std.specs.Prelude.{◌≡◌};
ghost use Rattle.policy.specs.Course.{Meaning};

/// A policy says, slot by slot, which rows to sample and which row to run.
pub trait Policy: Drop + Sized {
    // where a policy stands; whatever else a value holds does not count
    ghost Position: { Type 0 };

    ghost position: { Self → Position };

    // the course, the steps and the comparison of this kind, with their laws
    ghost meaning: { Meaning Position };

    /// The answer for the present slot, and on to the next slot.
    fn step(&mut self) -> (u16, u8)
        ensures answer { result ≡ meaning.course (position self.old) 0 }
        ensures moved { position self.new ≡ meaning.next (position self.old) };

    /// Whether this position compares with the other: a yes means equal courses, and a no nothing.
    fn same(&self, other: &Self) -> bool
        ensures { result ≡ meaning.alike (position self.now) (position other.now) };

    /// A second policy at the same position, and so with the same course.
    fn copy(&self) -> Self
        ensures { position result ≡ position self.now };
}
