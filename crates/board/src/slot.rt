ghost use Rattle.board.specs.Answers.{crosses};
ghost use Rattle.board.specs.Log.{nearer};
ghost use Rattle.board.specs.Waits.{crossing_to, waiting_of};
ghost use Rattle.std.specs.Prelude.{◌≡◌, ◌↔◌, IfNone, IfSome, IsTrue, None, Some, is_some, option_map, unwrap_or};
ghost use Rattle.books.specs.Crossings.{crossed, crossing_fault};
ghost use Rattle.books.specs.Held.{rows_of};
ghost use Rattle.books.specs.Slots.{fault, shown_row, slot};
ghost use Rattle.policy.specs.Policies.{course_of};
ghost use Rattle.readings.specs.Lists.{rows_of as readings_of};
ghost use Rattle.walk.specs.Plans.{list_of, policy_of};

use crate::call::Ticked;
use crate::waiting::Waiting;
use books::Books;
use policy::Policy;
use walk::Accepted;

// What happened in a slot: the rows sampled as a mask, the row run, or 0, and the row whose value
// went on show, or 0.
#[derive(Clone, Copy)]
pub(crate) struct Passed {
    pub(crate) sampled: u16,
    pub(crate) run: u8,
    pub(crate) shown: u8,
}

impl Passed {
    // What a tick grants of this slot, at whose end a crossing happened or not.
    pub(crate) fn ticked(&self, crossed: bool) -> Ticked
        ensures { result ≡ record {
          sampled = self.now.sampled;
          run = self.now.run;
          shown = self.now.shown;
          crossed = crossed;
        } }
    {
        Ticked {
            sampled: self.sampled,
            run: self.run,
            shown: self.shown,
            crossed,
        }
    }
}

// A slot passes: the books take the policy's answer.
pub(crate) fn pass_slot<P: Policy>(policy: &mut P, books: &mut Books) -> Passed
    requires { fault (course_of P.Policy policy.old 0) (rows_of books.old) ≡ None }
    ensures answer { (result.sampled, result.run) ≡ course_of P.Policy policy.old 0 }
    ensures shown { result.shown
        ≡ unwrap_or (shown_row (course_of P.Policy policy.old 0) (rows_of books.old)) 0 }
    ensures policy { P.position policy.new ≡ P.meaning.next (P.position policy.old) }
    ensures books { rows_of books.new ≡ slot (course_of P.Policy policy.old 0) (rows_of books.old) }
{
    let (sampled, run) = policy.step();
    let shown = books.take((sampled, run)).unwrap();
    Passed {
        sampled,
        run,
        shown: shown.unwrap_or(0),
    }
}

// List and policy of a plan cross in.
pub(crate) fn cross_over<P: Policy>(policy: &mut P, books: &mut Books, plan: Accepted<P>)
    requires { crossing_fault (rows_of books.old) (readings_of (list_of plan)) ≡ None }
    ensures policy { policy.new ≡ policy_of plan }
    ensures books { rows_of books.new ≡ crossed (rows_of books.old) (readings_of (list_of plan)) }
{
    *books = books.cross(plan.list()).unwrap();
    *policy = plan.into_policy();
}

// A crossing that waits is a tick nearer. Answers the plan that crosses in now, where no tick is
// left.
pub(crate) fn come_nearer<P: Policy>(waiting: &mut Option<Waiting<P>>) -> Option<Accepted<P>>
    ensures due { IsTrue (is_some result) ↔ IsTrue (crosses (waiting_of waiting.old)) }
    ensures plan { IfSome result (λ plan.
        option_map nearer (waiting_of waiting.old) ≡ Some (crossing_to plan 0)) }
    ensures none { IfSome result (λ _. waiting_of waiting.new ≡ None) }
    ensures later { IfNone result
        (waiting_of waiting.new ≡ option_map nearer (waiting_of waiting.old)) }
{
    if waiting.is_none() {
        return None;
    }
    let Waiting { ticks, plan } = waiting.take()?;
    let left = ticks - 1;
    if left == 0 {
        return Some(plan);
    }
    *waiting = Some(Waiting { ticks: left, plan });
    None
}
