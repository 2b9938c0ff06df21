ghost use Rattle.examples.specs.Kinds.{inactive_meaning, never_alike_meaning};

use policy::Policy;

/// A kind of policy that never samples or runs a row.
#[derive(Clone, Copy)]
pub struct Inactive;

impl Policy for Inactive {
    ghost Position = { Unit {0} };

    ghost position = { λ _. tt };

    ghost meaning = { inactive_meaning };

    fn step(&mut self) -> (u16, u8) {
        (0, 0)
    }

    fn same(&self, _other: &Self) -> bool {
        true
    }

    fn copy(&self) -> Self {
        *self
    }
}

/// A kind of policy that answers as another does, and whose comparison always says no.
#[derive(Drop)]
pub struct NeverAlike<P>(
    /// The other policy.
    pub P,
);

impl<P: Policy> Policy for NeverAlike<P> {
    ghost Position = { P.Position };

    ghost position = { λ d. P.position d.0 };

    ghost meaning = { never_alike_meaning P.meaning };

    fn step(&mut self) -> (u16, u8) {
        self.0.step()
    }

    fn same(&self, _other: &Self) -> bool {
        false
    }

    fn copy(&self) -> Self {
        NeverAlike(self.0.copy())
    }
}
