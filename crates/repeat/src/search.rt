ghost use Rattle.std.specs.Prelude.{◌≡◌, ℕ, ◌<◌, None, Ok, OnOk};
ghost use Rattle.repeat.specs.Finds.{Finds, AlikeLasts};
ghost use Rattle.repeat.specs.Marks.{Largest, after, mark_of};
ghost use Rattle.repeat.specs.SearchStep.{StepEnds, after_renewal, after_step, search_from, states_of};

use crate::found::{NoRepeat, Repeat};
use crate::stepper::Stepper;

// A search under way: the stepping thing, the mark, and a copy of the stepping thing as it stood
// there.
#[derive(Drop)]
struct Search<S> {
    here: S,
    mark: u16,
    kept: S,
}

impl<S: Stepper> Search<S> {
    // A search at instant 0, its first mark.
    fn new(start: &S) -> Search<S>
        ensures { states_of S.state result ≡ search_from (S.state start.now) }
    {
        Search {
            here: start.copy(),
            mark: 0,
            kept: start.copy(),
        }
    }

    // Takes this instant for the mark if it is the next number of the form 2^k - 1.
    fn renew(&mut self, instant: u16)
        ensures { states_of S.state self.new ≡ after_renewal instant (states_of S.state self.old) }
    {
        if u32::from(instant) == 2 * u32::from(self.mark) + 1 {
            self.mark = instant;
            self.kept = self.here.copy();
        }
    }

    // One step of the search: the stepping thing steps, its state is compared with the one at the
    // mark, and the mark is renewed.
    fn step(&mut self, slot: u16) -> Result<Option<Repeat>, NoRepeat<S::Fault>>
        requires { slot < 65535 }
        ensures ends { StepEnds S.meaning slot (states_of S.state self.old) result }
        ensures goes_on { result ≡ Ok None
            → states_of S.state self.new
            ≡ after_step S.meaning slot (states_of S.state self.old) }
    {
        self.here
            .step()
            .map_err(|fault| NoRepeat::Fault { slot, fault })?;
        let instant = slot + 1;
        if self.here.same(&self.kept) {
            return Ok(Some(Repeat {
                mark: self.mark,
                instant,
            }));
        }
        self.renew(instant);
        Ok(None)
    }
}

/// Steps a copy of `start` from instant 0 on. The search ends at the first instant from 1 on whose
/// state compares yes with the one at its mark, or fails with the first fault on the way, or with
/// neither at the limit. The mark of an instant is the largest number below it of the form 2^k - 1.
/// Where a yes of the comparison means the same faults ever after, no step after a repeat, however
/// far ahead, meets a fault.
#[tactic(auto, using(crate::proofs::Marks::largest))]
pub fn first_repeat<S: Stepper>(start: &S, limit: u16) -> Result<Repeat, NoRepeat<S::Fault>>
    ensures found { Finds S.meaning (S.state start.now) limit result }
    ensures only { (x : _) → Finds S.meaning (S.state start.now) limit x → x ≡ result }
    ensures faultless { AlikeLasts S.meaning → OnOk result
        ((n : ℕ) → S.meaning.fault (after S.meaning.next n (S.state start.now)) ≡ None) }
    ensures marks { (t : ℕ) → 0 < t → Largest t (mark_of t) }
{
    let mut search = Search::new(start);
    for slot in 0..limit {
        if let Some(repeat) = search.step(slot)? {
            return Ok(repeat);
        }
    }
    Err(NoRepeat::Nowhere)
}
