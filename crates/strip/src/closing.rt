ghost use Rattle.std.specs.Prelude.{◌≡◌, [], ◌+◌, ◌-◌, ℕ, Ok, Some, None, IfErr, IfNone, IfOk, IfSome, IsSome, OnErr, length, map};
ghost use Rattle.books.specs.Rows.{come_on};
ghost use Rattle.deferral.specs.Laying.{lay};
ghost use Rattle.deferral.specs.Schedules.{Schedule};
ghost use Rattle.policy.specs.Course.{Course};
ghost use Rattle.policy.specs.Policies.{SameCourse};
ghost use Rattle.readings.specs.Refusals.{content};
ghost use Rattle.strip.specs.Closings.{Repeats, loop_of};
ghost use Rattle.strip.specs.Held.{list_rows, loop_course, loop_first, loop_last, loop_start, memory_of, slots_of};
ghost use Rattle.strip.specs.Layings.{LaidRepeats, laid_loop, laid_rows, laid_slots, lent_memory};
ghost use Rattle.strip.specs.Meanings.{strip_meaning};
ghost use Rattle.walk.specs.Walks.{Walks, granted};

use crate::closed::ClosedStrip;
use crate::closer::Closer;
use crate::kept::Kept;
use crate::laying::{LayingStrip, Layout};
use books::Books;
use readings::Refusal;
use repeat::{Repeat, first_repeat};

impl<'a> LayingStrip<'a> {
    /// Closes the strip to a loop. New books for its list are walked over the slots up to the
    /// limit; the first instant at which they equal those at its mark ends the loop, which begins
    /// at the mark. Played with it for ever, the strip is the endless schedule of its list, and no
    /// other course is; a walk grants it with the same loop. Refused with 9 where nothing is laid,
    /// and where the books do not repeat or have a fault before, and then the strip is as it was.
    pub fn close(self) -> Result<ClosedStrip<'a>, (LayingStrip<'a>, Refusal)>
        ensures list { IfOk result (λ c. list_rows c ≡ laid_rows self.entry) }
        ensures slots { IfOk result (λ c. slots_of c ≡ laid_slots self.entry) }
        ensures memory { IfOk result (λ c. memory_of c ≡ lent_memory self.entry) }
        ensures found { IfOk result (λ c.
            LaidRepeats self.entry (loop_first c) (loop_last c + 1)) }
        ensures value { IfOk result (λ c.
            laid_loop self.entry ≡ Some (loop_first c, loop_last c)) }

        // what playing it means
        ensures schedule { IfOk result (λ c. Schedule (list_rows c) (loop_course c)) }
        ensures only { IfOk result (λ c. (d : Course)
            → Schedule (list_rows c) d → SameCourse d (loop_course c)) }
        ensures walks { IfOk result (λ c.
            Walks strip_meaning (loop_start c) (map come_on (list_rows c))
            (granted (loop_first c) (loop_last c + 1 - loop_first c))) }

        // refused
        ensures err { IfErr result (λ e. content e.1 ≡ (9, [])) }
        ensures none { OnErr result (laid_loop self.entry ≡ None) }
        ensures unrepeated { OnErr result ((mark t : ℕ) → ¬ LaidRepeats self.entry mark t) }
        ensures unchanged { IfErr result (λ e. e.0 ≡ self.entry) }
    {
        let Some(repeat) = self.repeat() else {
            return Err((self, Refusal::NoLoop));
        };
        let LayingStrip { memory, laid } = self;
        let Layout { list, count, .. } = laid.unwrap();
        let last = repeat.instant - 1;
        Ok(ClosedStrip::of(memory, list, count, repeat.mark, last))
    }

    // The first repeat of new books that are walked over the slots up to the limit, if there is
    // one.
    fn repeat(&self) -> Option<Repeat>
        ensures laid { IsSome result → IsSome self.now.laid }
        ensures found { IfSome result (λ r. LaidRepeats self.now r.mark r.instant) }
        ensures value { IfSome result (λ r. laid_loop self.now ≡ Some (r.mark, r.instant - 1)) }
        ensures none { IfNone result (laid_loop self.now ≡ None) }
        ensures unrepeated { IfNone result ((mark t : ℕ) → ¬ LaidRepeats self.now mark t) }
    {
        match &self.laid {
            None => None,
            Some(laid) => find_repeat(self.slots(), &laid.list, laid.limit),
        }
    }
}

// The first repeat of new books for a list that are walked over the slots laid for it, up to the
// limit, if there is one.
fn find_repeat(slots: &[u8], list: &Kept, limit: u16) -> Option<Repeat>
    requires { lay list.now (length slots.now) ≡ Ok (slots.now, limit) }
    ensures found { IfSome result (λ r.
        Repeats slots.now limit (map come_on list.now) r.mark r.instant) }
    ensures value { IfSome result (λ r.
        loop_of slots.now limit (map come_on list.now) ≡ Some (r.mark, r.instant - 1)) }
    ensures none { IfNone result (loop_of slots.now limit (map come_on list.now) ≡ None) }
    ensures unrepeated { IfNone result ((mark t : ℕ)
        → ¬ Repeats slots.now limit (map come_on list.now) mark t) }
{
    let books = Books::new(&list.list());
    let closer = Closer::new(&slots[..usize::from(limit)], books);
    first_repeat(&closer, limit).ok()
}
