ghost use Rattle.std.specs.Prelude.{ℕ};
ghost use Rattle.policy.specs.Banks.{bank_meaning};

use crate::policy::Policy;

/// Two policies of any kinds, and a number that says which is used: 1 the first, any other the
/// second. The course of a bank is that of the used policy, and a step moves only that one on.
#[derive(Drop)]
pub struct Bank<A, B> {
    /// The policy that 1 uses.
    pub first: A,
    /// The policy that any other number uses.
    pub second: B,
    /// The number that says which is used.
    pub used: u8,
}

impl<A: Policy, B: Policy> Bank<A, B> {
    ghost use Rattle.std.specs.Prelude.{◌≡◌, ◌≢◌};
    ghost use Rattle.policy.specs.Policies.{SameCourse, course_of};

    /// A bank of these two policies that uses the first where `used` is 1, and else the second.
    pub fn new(first: A, second: B, used: u8) -> Bank<A, B>
        ensures uses_first { used ≡ 1
            → SameCourse (course_of ⟦<Bank<A, B> as Policy>⟧ result) (course_of A.Policy first) }
        ensures uses_second { used ≢ 1
            → SameCourse (course_of ⟦<Bank<A, B> as Policy>⟧ result) (course_of B.Policy second) }
        ensures position { ⟦<Bank<A, B> as Policy>⟧.position result
            ≡ (A.position first, B.position second, used) }
    {
        Bank {
            first,
            second,
            used,
        }
    }
}

impl<A: Policy, B: Policy> Policy for Bank<A, B> {
    ghost Position = { A.Position × B.Position × ℕ };

    ghost position = { λ k. (A.position k.first, B.position k.second, k.used) };

    ghost meaning = { bank_meaning A.meaning B.meaning };

    fn step(&mut self) -> (u16, u8) {
        if self.used == 1 {
            self.first.step()
        } else {
            self.second.step()
        }
    }

    fn same(&self, other: &Self) -> bool {
        if self.used != other.used {
            false
        } else if self.used == 1 {
            self.first.same(&other.first)
        } else {
            self.second.same(&other.second)
        }
    }

    fn copy(&self) -> Self {
        Bank {
            first: self.first.copy(),
            second: self.second.copy(),
            used: self.used,
        }
    }
}
