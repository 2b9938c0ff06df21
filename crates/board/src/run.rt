ghost use Rattle.policy.specs.Policies.{course_of};
ghost use Rattle.books.specs.Held.{rows_of};
ghost use Rattle.board.specs.Lasting.{LastingRun};
ghost use Rattle.board.specs.Waits.{waiting_of};

use crate::call::{Grant, Shown, Ticked};
use crate::slot::{come_nearer, cross_over, pass_slot};
use crate::waiting::Waiting;
use books::Books;
use policy::Policy;
use readings::{Readings, Refusal};
use walk::Accepted;

// The largest latency of a switch, in ticks.
const LARGEST_LATENCY: u16 = 4095;

// A plan that runs: its policy, at the position of the next slot, the books of its list, and a
// crossing that waits, if one does. No slot ahead has a fault, and the crossing leads to books of
// which the same is true.
#[derive(Drop)]
pub(crate) struct Run<P: Policy> {
    pub(crate) policy: P,
    pub(crate) books: Books,
    pub(crate) waiting: Option<Waiting<P>>,
    ghost lasting: { LastingRun (record {
      rows = rows_of books;
      course = course_of P.Policy policy;
      waiting = waiting_of waiting;
    }) },
}

impl<P: Policy> Run<P> {
    ghost use Rattle.std.specs.Prelude.{◌≡◌, ◌≤◌, IfErr, IfOk, OnErr, OnOk, Ok, Err, Some, None};
    ghost use Rattle.readings.specs.Lists.{rows_of as readings_of};
    ghost use Rattle.walk.specs.Plans.{finishes_of, list_of, plan_course};
    ghost use Rattle.board.specs.Answers.{tick_grant};
    ghost use Rattle.books.specs.Crossings.{crossing_fault};
    ghost use Rattle.board.specs.Held.{board_of, running_of};
    ghost use Rattle.board.specs.Log.{reply_of, started, ticked, to_come};
    ghost use Rattle.board.specs.Promise.{KeepsPromise};
    ghost use Rattle.board.specs.Requests.{show, switch};
    ghost use Rattle.board.specs.Parts.{FirstTested};
    ghost use Rattle.board.specs.Waits.{crossing_to};

    // A plan begins: new books for its list.
    pub(crate) fn new(plan: Accepted<P>) -> Run<P>
        ensures { running_of result ≡ started (readings_of (list_of plan)) (plan_course plan) }
    {
        Run {
            books: Books::new(plan.list()),
            policy: plan.into_policy(),
            waiting: None,
        }
    }

    // A tick: the books take the policy's answer, and a crossing that waits is a tick nearer, or
    // happens.
    pub(crate) fn tick(&mut self) -> Ticked
        ensures value { result ≡ tick_grant (running_of self.old) }
        ensures after { running_of self.new ≡ ticked (running_of self.old) }
    {
        let passed = pass_slot(&mut self.policy, &mut self.books);
        let plan = come_nearer(&mut self.waiting);
        let crossed = plan.is_some();
        if let Some(plan) = plan {
            cross_over(&mut self.policy, &mut self.books, plan);
        }
        passed.ticked(crossed)
    }

    // A crossing is to come: at once where no tick is left, and else it waits.
    fn expect(&mut self, plan: Accepted<P>, ticks: u16)
        requires free { running_of self.old ≡ record (running_of self.old) { waiting = None } }
        requires clear { ticks ≡ 0
            → crossing_fault (running_of self.old).rows (readings_of (list_of plan)) ≡ None }
        requires lasts { LastingRun (to_come (crossing_to plan ticks) (running_of self.old)) }
        ensures { running_of self.new ≡ to_come (crossing_to plan ticks) (running_of self.old) }
    {
        if ticks == 0 {
            cross_over(&mut self.policy, &mut self.books, plan);
        } else {
            self.waiting = Some(Waiting { ticks, plan });
        }
    }

    // The ticks to the first instant, from now to so many ticks ahead, at which a plan may cross
    // in, if there is one. Steps copies of policy and books.
    fn first_instant(&self, plan: &Accepted<P>, latency: u16) -> Option<u16>
        ensures { FirstTested (running_of self.now).course (running_of self.now).rows
            (readings_of (list_of plan.now)) (finishes_of plan.now) latency result }
    {
        let mut policy = self.policy.copy();
        let mut books = self.books;
        for ticks in 0..=latency {
            if plan.may_cross(&books) {
                return Some(ticks);
            }
            pass_slot(&mut policy, &mut books);
        }
        None
    }

    // Looks for the first instant at which a plan may cross in, and has it cross there: answers the
    // ticks until then. Refused while a crossing waits, for a latency out of range, as the walk
    // refuses, and where there is no such instant.
    pub(crate) fn switch(
        &mut self,
        list: &Readings,
        policy: P,
        latency: u16,
    ) -> Result<u16, Refusal>
        ensures promise { KeepsPromise (board_of self.old)
            (switch (readings_of list.now) (P.position policy) latency)
            (reply_of Grant.Switched result) (board_of self.new) }
        ensures err { OnErr result (self.new ≡ self.old) }
    {
        if self.waiting.is_some() {
            return Err(Refusal::CrossingWaits);
        }
        if latency > LARGEST_LATENCY {
            return Err(Refusal::Latency);
        }
        let plan = Accepted::walk(list, policy)?;
        let Some(ticks) = self.first_instant(&plan, latency) else {
            return Err(Refusal::NoInstant);
        };
        self.expect(plan, ticks);
        Ok(ticks)
    }

    // How old the reading of an id is. Refused where the list in use has no such id.
    pub(crate) fn show(&self, id: u16) -> Result<Shown, Refusal>
        ensures { KeepsPromise (board_of self.now) (show id) (reply_of Grant.Shown result)
            (board_of self.now) }
    {
        let row = self.books.find(id).ok_or(Refusal::UnknownId)?;
        Ok(Shown {
            value: row.shown,
            age: row.age,
            validity: row.reading.validity,
        })
    }
}
