ghost use Rattle.std.specs.Prelude.{◌≡◌, ◌≤◌, length, map, unwrap_or};
ghost use Rattle.periodic.specs.Phases.{lowest, mask, run_lowest, sampled};

use crate::phase::Phase;
use planner::Timings;
use policy::Policy;

/// A policy that samples each row every period and runs the lowest row with work left, for at most
/// 16 rows.
#[derive(Clone, Copy)]
pub struct Periodic {
    phases: [Phase; 16],
    count: usize,
    ghost long: { length phases ≡ 16 },
    ghost few: { count ≤ 16 },
}

impl Periodic {
    ghost use Rattle.periodic.specs.Phases.{begun, periodic_course};
    ghost use Rattle.periodic.specs.Plays.{Plays};
    ghost use Rattle.periodic.specs.Positions.{phases_of};
    ghost use Rattle.planner.specs.Timings.{timings_of};

    /// A policy at its start: it samples every row in its first slot and then every period, and
    /// runs the lowest row with work left.
    pub fn new(timings: &Timings) -> Periodic
        ensures begun { phases_of result ≡ map begun (timings_of timings.now) }
        ensures plays { Plays (timings_of timings.now) (periodic_course (phases_of result)) }
    {
        let rows = timings.rows();
        let mut phases = [Phase::default(); 16];
        for (k, timing) in rows.iter().enumerate() {
            phases[k] = Phase::new(timing);
        }
        Periodic {
            phases,
            count: rows.len(),
        }
    }

    // The phases of its rows, first to last.
    fn phases(&self) -> &[Phase]
        ensures { result.now ≡ phases_of self.now }
    {
        &self.phases[..self.count]
    }
}

impl Policy for Periodic {
    ghost use Rattle.std.specs.Prelude.{List, ◌↔◌, IsTrue};
    ghost use Rattle.periodic.specs.Meanings.{periodic_meaning};
    ghost use Rattle.periodic.specs.Phases.{same_phases};
    ghost use Rattle.periodic.specs.Positions.{phases_of};
    ghost use Rattle.periodic.specs.declared.phase.Phase.{Phase};

    ghost Position = { List Phase };

    ghost position = { phases_of };

    ghost meaning = { periodic_meaning };

    fn step(&mut self) -> (u16, u8) {
        let phases = &mut self.phases[0..self.count];
        let mask = sample(phases);
        (mask, run(phases).unwrap_or(0))
    }

    // Whether all numbers kept are equal.
    fn same(&self, other: &Self) -> bool
        ensures value { result ≡ same_phases (phases_of self.now) (phases_of other.now) }
        ensures exact { IsTrue result ↔ (phases_of self.now ≡ phases_of other.now) }
    {
        self.phases() == other.phases()
    }

    fn copy(&self) -> Self {
        *self
    }
}

// Takes this slot's samples, and answers which rows they are of, as a mask.
fn sample(phases: &mut [Phase]) -> u16
    requires { length phases.old ≤ 16 }
    ensures answer { result ≡ mask phases.old }
    ensures taken { phases.new ≡ map sampled phases.old }
{
    let mut mask = 0;
    for (k, phase) in phases.iter_mut().enumerate() {
        if phase.sample() {
            mask += 1u16 << k;
        }
    }
    mask
}

// Runs the lowest row with work left for a slot, and answers it, counted from 1, if there is one.
fn run(phases: &mut [Phase]) -> Option<u8>
    requires { length phases.old ≤ 16 }
    ensures answer { unwrap_or result 0 ≡ lowest phases.old }
    ensures done { phases.new ≡ run_lowest phases.old }
{
    for (k, phase) in phases.iter_mut().enumerate() {
        if phase.left > 0 {
            phase.left -= 1;
            // a place below 16
            return Some(k as u8 + 1);
        }
    }
    None
}
