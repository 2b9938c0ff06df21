use crate::strips::{StripMemory, empty_strip, laid_strip};
use periodic::Periodic;
use planner::Timings;
use policy::{Bank, Policy};
use readings::{Proposal, Readings, Refusal};
use strip::{ClosedStrip, Player};

/// How the policy for a list is made.
#[derive(Clone, Copy, PartialEq, Eq, Debug)]
pub enum Planner {
    /// By periods: that of a row is half of its validity.
    HalfHalf,
    /// By periods: that of a row is what its response time leaves of its validity.
    MoreLess,
    /// By a strip, laid by deferrable scheduling and closed to a loop.
    Defer {
        /// The number of slots that the strip is to have.
        slots: u16,
    },
}

/// A list, and a policy for it at its first slot.
#[derive(Drop)]
pub struct Plan<'a> {
    /// The list of the readings.
    pub list: Readings,
    // the policy by periods; a stand-in where the strip is played
    periodic: Periodic,
    // the strip; a stand-in where the policy is by periods
    strip: ClosedStrip<'a>,
    // 1 where the policy is by periods, 2 where the strip is played
    used: u8,
}

impl<'a> Plan<'a> {
    ghost use Rattle.planner.specs.Timings.{timings_of};
    ghost use Rattle.readings.specs.Lists.{rows_of};
    ghost use Rattle.readings.specs.Refusals.{content};
    ghost use Rattle.script.specs.Plans.{WalkGranted, by_periods, plan_from, plan_of, plan_with, policy_by};
    ghost use Rattle.std.specs.Prelude.{◌≡◌, Ok, Err, IfErr, IfOk};

    /// The plan of these readings by a planner, in a memory for its strip. Refused as the list is
    /// (1 to 4), and then as the planner refuses: with 5 for More-Less, and for a strip as its
    /// laying is (6 to 8), or with 9 where it does not close.
    pub fn new(
        given: &[Proposal],
        planner: Planner,
        memory: &'a mut StripMemory,
    ) -> Result<Plan<'a>, Refusal>
        ensures ok { IfOk result (λ plan. plan_from given.now planner ≡ Ok (plan_of plan)) }
        ensures err { IfErr result (λ e. plan_from given.now planner ≡ Err (content e)) }
        ensures granted { IfOk result (λ plan. WalkGranted planner (plan_of plan)) }
    {
        let list = Readings::new(given)?;
        match planner {
            Planner::HalfHalf => Ok(Plan::by_periods(list, &Timings::half_half(&list), memory)),
            Planner::MoreLess => Ok(Plan::by_periods(list, &Timings::more_less(&list)?, memory)),
            Planner::Defer { slots } => Plan::by_strip(list, slots, memory),
        }
    }

    // A plan by periods.
    fn by_periods(list: Readings, timings: &Timings, memory: &'a mut StripMemory) -> Plan<'a>
        ensures { plan_with (rows_of list) (by_periods (rows_of list) (Ok (timings_of timings.now)))
            ≡ Ok (plan_of result) }
    {
        Plan {
            list,
            periodic: Periodic::new(timings),
            strip: empty_strip(&list, memory),
            used: 1,
        }
    }

    // A plan by a strip of so many slots.
    fn by_strip(
        list: Readings,
        slots: u16,
        memory: &'a mut StripMemory,
    ) -> Result<Plan<'a>, Refusal>
        ensures ok { IfOk result (λ plan.
            plan_with (rows_of list) (policy_by (Planner.Defer slots) (rows_of list))
            ≡ Ok (plan_of plan)) }
        ensures err { IfErr result (λ e.
            plan_with (rows_of list) (policy_by (Planner.Defer slots) (rows_of list))
            ≡ Err (content e)) }
        ensures granted { IfOk result (λ plan. WalkGranted (Planner.Defer slots) (plan_of plan)) }
    {
        let strip = laid_strip(&list, slots, memory)?;
        Ok(Plan {
            list,
            periodic: Periodic::new(&Timings::half_half(&list)),
            strip,
            used: 2,
        })
    }

    /// The policy in a bank, as the board of a script takes it: the first of the two is by periods,
    /// the second plays the strip.
    pub fn bank<'s>(&'s self) -> Bank<Periodic, Player<'s>>
        ensures { ⟦<Bank<Periodic, Player<'s>> as Policy>⟧.position result
            ≡ (plan_of self.now).policy }
    {
        Bank::new(self.periodic, Player::new(&self.strip), self.used)
    }
}
