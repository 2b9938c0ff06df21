ghost use Rattle.books.specs.Ages.{AgesCounted};
ghost use Rattle.books.specs.Held.{rows_of};
ghost use Rattle.books.specs.Slots.{fault_at};
ghost use Rattle.books.specs.declared.row.Row.{Row};
ghost use Rattle.policy.specs.Policies.{course_of};
ghost use Rattle.repeat.specs.Marks.{after};
ghost use Rattle.rows.specs.Held.{rows_of as held};
ghost use Rattle.std.specs.Prelude.{◌≡◌, ℕ, EachIndex, List, None, OnOk, length, slice_index};
ghost use Rattle.walk.specs.Finishes.{FirstFinish, NoneShown};
ghost use Rattle.walk.specs.Searches.{Searched, walk_meaning};
ghost use Rattle.walk.specs.Steps.{walk_fault, walk_next};

use crate::finishes::{instants_of, note_all};
use books::{Books, Fault};
use policy::Policy;
use repeat::{NoRepeat, Repeat, Stepper, first_repeat};
use rows::Rows;

// The last instant that a walk comes to.
const LAST_INSTANT: u16 = 32_767;

// A policy with the books that its answers are taken to.
#[derive(Drop)]
pub(crate) struct Walker<P> {
    pub(crate) policy: P,
    pub(crate) books: Books,
}

impl<P: Policy> Walker<P> {
    // The first repeat of policy and books from here on, or why there is none.
    pub(crate) fn search(&self) -> Result<Repeat, NoRepeat<Fault>>
        ensures found { Searched P.meaning
            (P.position self.now.policy, rows_of self.now.books) result }
        ensures only { (x : _)
            → Searched P.meaning (P.position self.now.policy, rows_of self.now.books) x
            → x ≡ result }
        ensures faultless { OnOk result ((n : ℕ)
            → walk_fault P.meaning (after (walk_next P.meaning) n
            (P.position self.now.policy, rows_of self.now.books)) ≡ None) }
    {
        first_repeat(self, LAST_INSTANT)
    }

    // The first finish of each row along a course that has no fault: no row waits longer than its
    // validity, which is at most 4,095 slots.
    pub(crate) fn first_finishes(&self) -> Rows<u16>
        requires faultless { (n : ℕ) → fault_at (course_of P.Policy self.now.policy)
            (rows_of self.now.books) n ≡ None }
        requires ages { AgesCounted (rows_of self.now.books) }
        requires none { NoneShown (rows_of self.now.books) }
        ensures count { length (held result) ≡ length (rows_of self.now.books) }
        ensures each { EachIndex (rows_of self.now.books) (λ k.
            FirstFinish (course_of P.Policy self.now.policy) (rows_of self.now.books) k
            (slice_index (held result) k)) }
    {
        let mut walker = self.copy();
        let mut finishes = [None; 16];
        for slot in 0..4095u16 {
            let _ = walker.step();
            if note_all(&mut finishes, walker.books.rows(), slot + 1) {
                break;
            }
        }
        instants_of(&finishes[..self.books.rows().len()])
    }
}

impl<P: Policy> Stepper for Walker<P> {
    type Fault = Fault;

    ghost State = { P.Position × List Row };

    ghost state = { λ w. (P.position w.policy, rows_of w.books) };

    ghost meaning = { walk_meaning P.meaning };

    fn step(&mut self) -> Result<(), Fault> {
        let answer = self.policy.step();
        self.books.take(answer)?;
        Ok(())
    }

    // The books first: they differ most.
    fn same(&self, other: &Self) -> bool {
        self.books.same(&other.books) && self.policy.same(&other.policy)
    }

    fn copy(&self) -> Self {
        Walker {
            policy: self.policy.copy(),
            books: self.books,
        }
    }
}
