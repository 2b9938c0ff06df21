ghost use Rattle.std.specs.Prelude.{◌≡◌, None, Some, OnErr, OnOk, IfErr};
ghost use Rattle.repeat.specs.Finds.{Stepping};

/// A stepping thing stands in a state. A step leads to the next state, or meets a fault and stops,
/// and two states can be compared.
pub trait Stepper: Drop + Sized {
    /// What a step may meet.
    type Fault: Drop;

    // where a stepping thing stands; whatever else a value holds does not count
    ghost State: { Type 0 };

    ghost state: { Self → State };

    // the steps, the faults and the comparison of this kind
    ghost meaning: { Stepping State Self.Fault };

    /// On to the next state. Fails with the fault that the step meets, if it meets one.
    fn step(&mut self) -> Result<(), Self::Fault>
        ensures faultless { OnOk result (meaning.fault (state self.old) ≡ None) }
        ensures moved { OnOk result (state self.new ≡ meaning.next (state self.old)) }
        ensures met { IfErr result (λ met. meaning.fault (state self.old) ≡ Some met) }
        ensures halted { OnErr result (state self.new ≡ meaning.stopped (state self.old)) };

    /// Whether this state compares with the other, as this kind compares states.
    fn same(&self, other: &Self) -> bool
        ensures { result ≡ meaning.alike (state self.now) (state other.now) };

    /// A second stepping thing in the same state.
    fn copy(&self) -> Self
        ensures { state result ≡ state self.now };
}
