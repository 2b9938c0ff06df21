ghost use Rattle.books.specs.Held.{rows_of as books_rows};
ghost use Rattle.policy.specs.Policies.{course_of};
ghost use Rattle.readings.specs.Lists.{rows_of as readings_of};
ghost use Rattle.readings.specs.Refusals.{content};
ghost use Rattle.rows.specs.Held.{rows_of};
ghost use Rattle.std.specs.Prelude.{◌≡◌, ◌↔◌, IsTrue};
ghost use Rattle.walk.specs.Acceptance.{Accepts, new_rows};
ghost use Rattle.walk.specs.Crossings.{AllInTime, InTime};
ghost use Rattle.walk.specs.Finishes.{OneEach};
ghost use Rattle.walk.specs.Loops.{Loops};
ghost use Rattle.walk.specs.Walks.{end_content};

use crate::walker::Walker;
use books::{Books, Fault, Row};
use policy::Policy;
use readings::{Reading, Readings, Refusal};
use repeat::{NoRepeat, Repeat};
use rows::Rows;

/// A plan that a walk has accepted: a list of readings and a policy for it. Along the policy's
/// course, with new books for the list, no slot ever has a fault, each row has a first finish, and
/// from the plan's mark on answers and books come again every `length` slots.
#[derive(Drop)]
pub struct Accepted<P: Policy> {
    list: Readings,
    policy: P,
    mark: u16,
    length: u16,
    finishes: Rows<u16>,
    ghost each: { OneEach (readings_of list) (rows_of finishes) },
    ghost accepted: { Accepts (course_of P.Policy policy) (new_rows list) (rows_of finishes) },
    ghost loops: { Loops (course_of P.Policy policy) (new_rows list) mark length },
}

impl<P: Policy> Accepted<P> {
    ghost use Rattle.books.specs.Lookups.{Idle};
    ghost use Rattle.repeat.specs.Marks.{Largest, mark_of};
    ghost use Rattle.std.specs.Prelude.{◌-◌, ◌<◌, ℕ, IfOk};
    ghost use Rattle.walk.specs.Crossings.{Keeps, MayCross};
    ghost use Rattle.walk.specs.Plans.{finishes_of, list_of, outcome, plan_course, policy_of, repeat_length, repeat_mark};
    ghost use Rattle.walk.specs.Walks.{Outcome, Walks};

    // The plan of a list and a policy whose search found this repeat.
    fn of(list: &Readings, policy: P, repeat: Repeat, finishes: Rows<u16>) -> Accepted<P>
        requires each { OneEach (readings_of list.now) (rows_of finishes) }
        requires accepts { Accepts (course_of P.Policy policy) (new_rows list.now)
            (rows_of finishes) }
        requires loops { Loops (course_of P.Policy policy) (new_rows list.now)
            repeat.mark (repeat.instant - repeat.mark) }
        ensures list { list_of result ≡ list.now }
        ensures policy { policy_of result ≡ policy }
        ensures mark { repeat_mark result ≡ repeat.mark }
        ensures length { repeat_length result ≡ repeat.instant - repeat.mark }
    {
        Accepted {
            list: *list,
            policy,
            mark: repeat.mark,
            length: repeat.instant - repeat.mark,
            finishes,
        }
    }

    /// Walks a policy with new books for a list, slot by slot from instant 0. Accepts it at the
    /// first instant, from 1 to 32,767, where the books equal those at the instant's mark and the
    /// position compares yes with the one there. Refuses it for the first fault before that, with
    /// 11 or 12, or with 13 where there is neither.
    pub fn walk(list: &Readings, policy: P) -> Result<Accepted<P>, Refusal>
        ensures walks { Walks P.meaning (P.position policy) (new_rows list.now) (outcome result) }
        ensures only { (x : Outcome)
            → Walks P.meaning (P.position policy) (new_rows list.now) x
            → x ≡ outcome result }
        ensures marks { (t : ℕ) → 0 < t → Largest t (mark_of t) }
        ensures list { IfOk result (λ a. list_of a ≡ list.now) }
        ensures policy { IfOk result (λ a. policy_of a ≡ policy) }
        ensures accepts { IfOk result (λ a.
            Accepts (course_of P.Policy policy) (new_rows list.now) (finishes_of a)) }
        ensures loops { IfOk result (λ a. Loops (course_of P.Policy policy) (new_rows list.now)
            (repeat_mark a) (repeat_length a)) }
    {
        let walker = Walker {
            policy,
            books: Books::new(list),
        };
        let repeat = walker.search().map_err(refusal_for)?;
        let finishes = walker.first_finishes();
        let Walker { policy, books: _ } = walker;
        Ok(Accepted::of(list, policy, repeat, finishes))
    }

    /// Whether the books may cross to this plan now: no job is open, and each shared reading, which
    /// is one of the plan whose id the books have, stays valid up to its first finish by the plan.
    /// That is exactly when no job is open and a crossing now keeps every shared reading valid for
    /// ever.
    pub fn may_cross(&self, books: &Books) -> bool
        ensures test { IsTrue result
            ↔ MayCross (books_rows books.now) (readings_of (list_of self.now))
            (finishes_of self.now) }
        ensures exact { IsTrue result
            ↔ (Idle (books_rows books.now)
            × Keeps (books_rows books.now) (readings_of (list_of self.now))
            (plan_course self.now)) }
    {
        books.is_idle() && all_in_time(books, self.list.rows(), self.finishes.as_slice())
    }

    /// The list.
    pub fn list(&self) -> &Readings
        ensures { result.now ≡ list_of self.now }
    {
        &self.list
    }

    /// The policy, at the position where it was accepted.
    pub fn into_policy(self) -> P
        ensures { result ≡ policy_of self }
    {
        let Accepted { policy, .. } = self;
        policy
    }

    /// The mark: the instant at which the loop begins, counted from the plan's first.
    pub fn mark(&self) -> u16
        ensures value { result ≡ repeat_mark self.now }
        ensures loops { Loops (plan_course self.now) (new_rows (list_of self.now))
            result (repeat_length self.now) }
    {
        self.mark
    }

    /// The length of the loop, in slots.
    pub fn length(&self) -> u16
        ensures value { result ≡ repeat_length self.now }
        ensures loops { Loops (plan_course self.now) (new_rows (list_of self.now))
            (repeat_mark self.now) result }
    {
        self.length
    }

    /// The first finish of each row: the instant, counted from the plan's first, at which its first
    /// value goes on show.
    pub fn first_finishes(&self) -> &[u16]
        ensures value { result.now ≡ finishes_of self.now }
        ensures each { OneEach (readings_of (list_of self.now)) result.now }
        ensures accepts { Accepts (plan_course self.now) (new_rows (list_of self.now)) result.now }
    {
        self.finishes.as_slice()
    }
}

// The refusal of a walk whose search has no repeat: that of the fault that it met, or 13.
fn refusal_for(end: NoRepeat<Fault>) -> Refusal
    ensures { content result ≡ end_content end }
{
    match end {
        NoRepeat::Fault { slot, fault } => fault.refusal(slot),
        NoRepeat::Nowhere => Refusal::NoRepeat,
    }
}

// Whether a reading is not shared, or its row stays valid up to this first finish.
fn is_in_time(books: &Books, reading: &Reading, finish: u16) -> bool
    ensures { IsTrue result ↔ InTime (books_rows books.now) reading.now finish }
{
    books.find(reading.id).is_none_or(|row| {
        Row {
            reading: *reading,
            ..row
        }
        .is_valid_after(finish)
    })
}

// Whether each of these readings, with its first finish, is in time.
fn all_in_time(books: &Books, readings: &[Reading], finishes: &[u16]) -> bool
    requires { OneEach readings.now finishes.now }
    ensures { IsTrue result ↔ AllInTime (books_rows books.now) readings.now finishes.now }
{
    for (k, reading) in readings.iter().enumerate() {
        if !is_in_time(books, reading, finishes[k]) {
            return false;
        }
    }
    true
}
