ghost use Rattle.examples.specs.Endings.{FinishesGive, PeriodsGive, ResponsesGive, WalkGives};
ghost use Rattle.examples.specs.Lists.{MoreLessGives, first_phases, new_books, readings_x};
ghost use Rattle.examples.specs.Rules.{RulesGive, RulesGiveOnly, XToY};
ghost use Rattle.examples.specs.Runs.{Faulty, StandsAfter, slot_ending};
ghost use Rattle.books.specs.Slots.{fault_at};
ghost use Rattle.periodic.specs.Phases.{periodic_course};
ghost use Rattle.periodic.specs.Positions.{phases_of};
ghost use Rattle.planner.specs.Periods.{half_half, more_less};
ghost use Rattle.planner.specs.Timings.{timings_of};
ghost use Rattle.policy.specs.Policies.{course_of};
ghost use Rattle.readings.specs.Lists.{rows_of};
ghost use Rattle.readings.specs.Refusals.{content};
ghost use Rattle.std.specs.Prelude.{◌≡◌, Err, IfErr, IfOk, None, Ok, OnErr, OnOk, length};

use crate::ending::Ending;
use crate::kinds::{Inactive, NeverAlike};
use crate::lists::{list_x, list_y, list_z};
use books::Books;
use periodic::Periodic;
use planner::Timings;
use policy::Policy;
use readings::{Readings, Refusal};
use std::fmt;
use walk::Accepted;

/// An example: one thing to work out about lists X, Y and Z.
#[derive(Clone, Copy)]
pub enum Example {
    /// The periods of list X by Half-Half.
    HalfHalfPeriodsOfX,
    /// The walk of list X by Half-Half.
    HalfHalfOfX,
    /// The response times of list X by More-Less.
    ResponsesOfX,
    /// The periods of list X by More-Less.
    PeriodsOfX,
    /// The walk of list X by More-Less.
    MoreLessOfX,
    /// The first finishes of list X by More-Less.
    FinishesOfX,
    /// The periods of list Y by More-Less.
    PeriodsOfY,
    /// The walk of list Y by More-Less.
    MoreLessOfY,
    /// Row 3 of list Y by More-Less, as it is judged in slot 11.
    RowThreeOfY,
    /// The walk of list Z by More-Less, which refuses the list.
    MoreLessOfZ,
    /// The walk of list X by a policy that never samples or runs.
    InactiveOverX,
    /// The walk of list X by More-Less with a comparison that always says no.
    NeverAlikeOverX,
    /// Whether X may cross to Y at instant 1.
    CrossingAtOne,
    /// Whether X may cross to Y at instant 6.
    CrossingAtSix,
    /// Whether X may cross to Y at instant 7.
    CrossingAtSeven,
}

impl Example {
    /// All examples.
    pub const ALL: [Example; 15] = [
        Example::HalfHalfPeriodsOfX,
        Example::HalfHalfOfX,
        Example::ResponsesOfX,
        Example::PeriodsOfX,
        Example::MoreLessOfX,
        Example::FinishesOfX,
        Example::PeriodsOfY,
        Example::MoreLessOfY,
        Example::RowThreeOfY,
        Example::MoreLessOfZ,
        Example::InactiveOverX,
        Example::NeverAlikeOverX,
        Example::CrossingAtOne,
        Example::CrossingAtSix,
        Example::CrossingAtSeven,
    ];

    /// The one ending that the rules give for the example, written out.
    #[tactic(auto, using(crate::proofs::Only::one_ending))]
    pub fn expected_ending(self) -> Result<Ending, Refusal>
        ensures { RulesGiveOnly self result }
    {
        match self {
            Example::HalfHalfPeriodsOfX => Ok(Ending::EachRow(2, 5, 10)),
            Example::HalfHalfOfX => Err(Refusal::JobRule { slot: 10, row: 3 }),
            Example::ResponsesOfX => Ok(Ending::EachRow(1, 3, 6)),
            Example::PeriodsOfX => Ok(Ending::EachRow(4, 7, 14)),
            Example::MoreLessOfX => Ok(Ending::Granted {
                mark: 31,
                length: 28,
            }),
            Example::FinishesOfX => Ok(Ending::EachRow(1, 3, 6)),
            Example::PeriodsOfY => Ok(Ending::EachRow(6, 6, 6)),
            Example::MoreLessOfY => Ok(Ending::Granted { mark: 7, length: 6 }),
            Example::RowThreeOfY => Ok(Ending::Judged {
                age: 12,
                shown: Some(3),
            }),
            Example::MoreLessOfZ => Err(Refusal::Response { row: 2 }),
            Example::InactiveOverX => Err(Refusal::Stale { slot: 5, row: 1 }),
            Example::NeverAlikeOverX => Err(Refusal::NoRepeat),
            Example::CrossingAtOne => Ok(Ending::Says(false)),
            Example::CrossingAtSix => Ok(Ending::Says(true)),
            Example::CrossingAtSeven => Ok(Ending::Says(false)),
        }
    }

    /// The ending of the example, worked out from start to end: the one that the rules give, which
    /// is the one expected. Refused where the rules refuse.
    #[tactic(auto, using(crate::proofs::Only::one_ending))]
    pub fn ending(self) -> Result<Ending, Refusal>
        ensures { RulesGiveOnly self result }
    {
        self.run()
    }

    // Works the example out.
    #[tactic(auto, unfolding(crate::specs::Rules::RulesGive))]
    fn run(self) -> Result<Ending, Refusal>
        ensures { RulesGive self result }
    {
        let x = list_x()?;
        let y = list_y()?;
        let z = list_z()?;
        match self {
            Example::HalfHalfPeriodsOfX => Ok(periods(&Timings::half_half(&x))),
            Example::HalfHalfOfX => walk_ending(&x, half_half_policy(&x)),
            Example::ResponsesOfX => responses_of_x(),
            Example::PeriodsOfX => Ok(periods(&Timings::more_less(&x)?)),
            Example::MoreLessOfX => walk_ending(&x, more_less_policy(&x)?),
            Example::FinishesOfX => finishes_of_x(),
            Example::PeriodsOfY => Ok(periods(&Timings::more_less(&y)?)),
            Example::MoreLessOfY => walk_ending(&y, more_less_policy(&y)?),
            Example::RowThreeOfY => slot_after(&y, more_less_policy(&y)?, 11, 9),
            Example::MoreLessOfZ => walk_ending(&z, more_less_policy(&z)?),
            Example::InactiveOverX => walk_ending(&x, Inactive),
            Example::NeverAlikeOverX => walk_ending(&x, NeverAlike(more_less_policy(&x)?)),
            Example::CrossingAtOne => crossing_after(1),
            Example::CrossingAtSix => crossing_after(6),
            Example::CrossingAtSeven => crossing_after(7),
        }
    }
}

// What is to be worked out.
impl fmt::Display for Example {
    fn fmt<W: fmt::Write>(&self, f: &mut fmt::Formatter<W>) -> fmt::Result {
        let title = match self {
            Example::HalfHalfPeriodsOfX => "periods of list X by Half-Half",
            Example::HalfHalfOfX => "walk of list X by Half-Half",
            Example::ResponsesOfX => "response times of list X by More-Less",
            Example::PeriodsOfX => "periods of list X by More-Less",
            Example::MoreLessOfX => "walk of list X by More-Less",
            Example::FinishesOfX => "first finishes of list X by More-Less",
            Example::PeriodsOfY => "periods of list Y by More-Less",
            Example::MoreLessOfY => "walk of list Y by More-Less",
            Example::RowThreeOfY => "row 3 of list Y by More-Less in slot 11",
            Example::MoreLessOfZ =>
                "walk of list Z by More-Less, where the response time of row 2 would be 7",
            Example::InactiveOverX => "walk of list X by a policy that never samples or runs",
            Example::NeverAlikeOverX =>
                "walk of list X by More-Less with a comparison that always says no",
            Example::CrossingAtOne => "may X cross to Y at instant 1, with a job open",
            Example::CrossingAtSix => "may X cross to Y at instant 6",
            Example::CrossingAtSeven => "may X cross to Y at instant 7",
        };
        write!(f, "{title}")
    }
}

// The policy of a list by Half-Half, at its start.
fn half_half_policy(list: &Readings) -> Periodic
    ensures { phases_of result ≡ first_phases (half_half (rows_of list.now)) }
{
    Periodic::new(&Timings::half_half(list))
}

/// The policy of a list by More-Less, at its start. Refused where More-Less refuses the list.
pub fn more_less_policy(list: &Readings) -> Result<Periodic, Refusal>
    ensures ok { IfOk result (λ p.
        MoreLessGives (rows_of list.now) (λ ts. phases_of p ≡ first_phases ts)) }
    ensures err { IfErr result (λ r. more_less (rows_of list.now) ≡ Err (content r)) }
{
    Ok(Periodic::new(&Timings::more_less(list)?))
}

/// The mark and the length of the walk of a policy with new books for a list. Refused where the
/// walk refuses.
pub fn walk_ending<P: Policy>(list: &Readings, policy: P) -> Result<Ending, Refusal>
    ensures { WalkGives P.meaning (P.position policy) (rows_of list.now) result }
{
    let plan = Accepted::walk(list, policy)?;
    Ok(Ending::Granted {
        mark: plan.mark(),
        length: plan.length(),
    })
}

// The periods of three rows.
fn periods(timings: &Timings) -> Ending
    requires { length (timings_of timings.now) ≡ 3 }
    ensures { PeriodsGive (timings_of timings.now) (Ok result) }
{
    let rows = timings.rows();
    Ending::EachRow(rows[0].period, rows[1].period, rows[2].period)
}

// The response times of list X by More-Less: what the periods leave of the validities.
fn responses_of_x() -> Result<Ending, Refusal>
    ensures { MoreLessGives readings_x (λ ts. ResponsesGive readings_x ts result) }
{
    let x = list_x()?;
    let timings = Timings::more_less(&x)?;
    let (readings, rows) = (x.rows(), timings.rows());
    Ok(Ending::EachRow(
        readings[0].validity - rows[0].period,
        readings[1].validity - rows[1].period,
        readings[2].validity - rows[2].period,
    ))
}

// The first finishes of list X by More-Less.
fn finishes_of_x() -> Result<Ending, Refusal>
    ensures { MoreLessGives readings_x (λ ts.
        FinishesGive (periodic_course (first_phases ts)) readings_x result) }
{
    let x = list_x()?;
    let plan = Accepted::walk(&x, more_less_policy(&x)?)?;
    let finishes = plan.first_finishes();
    Ok(Ending::EachRow(finishes[0], finishes[1], finishes[2]))
}

// The books of a list after so many slots of a policy, and the policy there. Refused where a slot
// has a fault.
fn books_after<P: Policy>(list: &Readings, mut policy: P, slots: u16) -> Result<(Books, P), Refusal>
    ensures ok { IfOk result (λ w. StandsAfter (course_of P.Policy policy) (rows_of list.now) slots
        w.0 (course_of P.Policy w.1)) }
    ensures err { OnErr result (Faulty (course_of P.Policy policy) (rows_of list.now)) }
{
    let mut books = Books::new(list);
    for slot in 0..slots {
        books
            .take(policy.step())
            .map_err(|fault| fault.refusal(slot))?;
    }
    Ok((books, policy))
}

// The age that the row of an id comes to in one more slot after so many, and the row that it puts
// on show. Refused where a slot has a fault.
fn slot_after<P: Policy>(list: &Readings, policy: P, slots: u16, id: u16) -> Result<Ending, Refusal>
    ensures ok { IfOk result (λ e.
        e ≡ slot_ending (course_of P.Policy policy) (rows_of list.now) slots id) }
    ensures faultless { OnOk result
        (fault_at (course_of P.Policy policy) (new_books (rows_of list.now)) slots ≡ None) }
    ensures err { OnErr result (Faulty (course_of P.Policy policy) (rows_of list.now)) }
{
    let (mut books, mut policy) = books_after(list, policy, slots)?;
    let age = books.find(id).map_or(0, |row| row.age.saturating_add(1));
    let shown = books
        .take(policy.step())
        .map_err(|fault| fault.refusal(slots))?;
    Ok(Ending::Judged { age, shown })
}

// Whether a board that runs X by More-Less may cross to Y by More-Less after so many slots.
fn crossing_after(slots: u16) -> Result<Ending, Refusal>
    ensures { XToY slots result }
{
    let x = list_x()?;
    let y = list_y()?;
    let (books, _policy) = books_after(&x, more_less_policy(&x)?, slots)?;
    let plan = Accepted::walk(&y, more_less_policy(&y)?)?;
    Ok(Ending::Says(plan.may_cross(&books)))
}
