ghost use Rattle.examples.specs.Lists.{readings_x};
ghost use Rattle.examples.specs.StripRules.{PlayedX, StripRulesGive, StripRulesGiveOnly, outside};
ghost use Rattle.examples.specs.Strips.{LoopGives, OutsideGives, PlayerGives, SamplesGive, StripGives};
ghost use Rattle.readings.specs.Lists.{rows_of};
ghost use Rattle.std.specs.Prelude.{◌≡◌, ◌≤◌};

use crate::ending::Ending;
use crate::example::walk_ending;
use crate::lists::{list_s, list_t, list_x, list_z};
use crate::strips::{first_samples, laid_strip};
use readings::{Readings, Refusal};
use std::fmt;
use strip::{ClosedStrip, Player};

/// An example about strips: one thing to work out about lists X, Z, T and S.
#[derive(Clone, Copy)]
pub enum StripExample {
    /// The loop of list X, laid on 89 slots and closed.
    LoopOfX,
    /// The same on 88 slots, where the books do not repeat.
    NoLoopOfX,
    /// The loop of list Z, laid on 30 slots and closed.
    LoopOfZ,
    /// The same on 29 slots, where the books do not repeat.
    NoLoopOfZ,
    /// The loop of list T, whose laying on 88 slots is refused.
    LayingOfT,
    /// The slots that sample row 2 of list X, laid on 89 slots, closed and played.
    RowTwoOfX,
    /// The slots that sample row 3.
    RowThreeOfX,
    /// The walk of the same player.
    WalkOfX,
    /// The walk of a player of list S, on four slots from outside.
    WalkFromOutside,
}

impl StripExample {
    /// All examples.
    pub const ALL: [StripExample; 9] = [
        StripExample::LoopOfX,
        StripExample::NoLoopOfX,
        StripExample::LoopOfZ,
        StripExample::NoLoopOfZ,
        StripExample::LayingOfT,
        StripExample::RowTwoOfX,
        StripExample::RowThreeOfX,
        StripExample::WalkOfX,
        StripExample::WalkFromOutside,
    ];

    /// The one ending that the rules give for the example, written out.
    #[tactic(auto, using(crate::proofs::StripOnly::one_ending))]
    pub fn expected_ending(self) -> Result<Ending, Refusal>
        ensures { StripRulesGiveOnly self result }
    {
        match self {
            StripExample::LoopOfX => Ok(Ending::Loop {
                first: 63,
                last: 78,
            }),
            StripExample::NoLoopOfX => Err(Refusal::NoLoop),
            StripExample::LoopOfZ => Ok(Ending::Loop {
                first: 15,
                last: 22,
            }),
            StripExample::NoLoopOfZ => Err(Refusal::NoLoop),
            StripExample::LayingOfT => Err(Refusal::NextJob { row: 3 }),
            StripExample::RowTwoOfX => Ok(Ending::Slots(0, 7, 14, 22, 30)),
            StripExample::RowThreeOfX => Ok(Ending::Slots(0, 18, 35, 51, 67)),
            StripExample::WalkOfX => Ok(Ending::Granted {
                mark: 63,
                length: 16,
            }),
            StripExample::WalkFromOutside => Err(Refusal::Stale { slot: 2, row: 1 }),
        }
    }

    /// The ending of the example, worked out from start to end: the one that the rules give, which
    /// is the one expected. Refused where the rules refuse.
    #[tactic(auto, using(crate::proofs::StripOnly::one_ending))]
    pub fn ending(self) -> Result<Ending, Refusal>
        ensures { StripRulesGiveOnly self result }
    {
        self.run()
    }

    // Works the example out.
    #[tactic(auto, unfolding(crate::specs::StripRules::StripRulesGive))]
    fn run(self) -> Result<Ending, Refusal>
        ensures { StripRulesGive self result }
    {
        match self {
            StripExample::LoopOfX => loop_ending(&list_x()?, 89),
            StripExample::NoLoopOfX => loop_ending(&list_x()?, 88),
            StripExample::LoopOfZ => loop_ending(&list_z()?, 30),
            StripExample::NoLoopOfZ => loop_ending(&list_z()?, 29),
            StripExample::LayingOfT => loop_ending(&list_t()?, 88),
            StripExample::RowTwoOfX => samples_of_x(1),
            StripExample::RowThreeOfX => samples_of_x(2),
            StripExample::WalkOfX => walk_of_x(),
            StripExample::WalkFromOutside => walk_from_outside(),
        }
    }
}

// What is to be worked out.
impl fmt::Display for StripExample {
    fn fmt<W: fmt::Write>(&self, f: &mut fmt::Formatter<W>) -> fmt::Result {
        let title = match self {
            StripExample::LoopOfX => "list X laid on 89 slots and closed",
            StripExample::NoLoopOfX => "list X laid on 88 slots and closed",
            StripExample::LoopOfZ => "list Z laid on 30 slots and closed",
            StripExample::NoLoopOfZ => "list Z laid on 29 slots and closed",
            StripExample::LayingOfT => "list T, three rows alike, laid on 88 slots and closed",
            StripExample::RowTwoOfX =>
                "first five slots that sample row 2 of list X, laid on 89 slots and played",
            StripExample::RowThreeOfX =>
                "first five slots that sample row 3 of list X, laid on 89 slots and played",
            StripExample::WalkOfX => "walk of list X, laid on 89 slots and played",
            StripExample::WalkFromOutside =>
                "walk of list S, played on slots 1, 0, 0, 0 with loop 1 to 3 from outside",
        };
        write!(f, "{title}")
    }
}

// The loop of a list that is laid on so many slots and closed.
fn loop_ending(list: &Readings, slots: usize) -> Result<Ending, Refusal>
    requires { slots ≤ 89 }
    ensures { LoopGives (rows_of list.now) slots result }
{
    let mut memory = [0; 89];
    let strip = laid_strip(list, &mut memory, slots)?;
    Ok(Ending::Loop {
        first: strip.first(),
        last: strip.last(),
    })
}

// The first five slots that sample row k + 1 of X, laid on 89 slots and played.
fn samples_of_x(k: u16) -> Result<Ending, Refusal>
    requires { k ≤ 2 }
    ensures { PlayedX (λ c. SamplesGive c k result) }
{
    let x = list_x()?;
    let mut memory = [0; 89];
    let strip = laid_strip(&x, &mut memory, 89)?;
    // each row of X is sampled five times in its first 89 slots
    Ok(first_samples(Player::new(&strip), k, 89).unwrap())
}

// The walk of X, laid on 89 slots and played.
fn walk_of_x() -> Result<Ending, Refusal>
    ensures { StripGives readings_x 89 (λ s. PlayerGives s result) }
{
    let x = list_x()?;
    let mut memory = [0; 89];
    let strip = laid_strip(&x, &mut memory, 89)?;
    walk_ending(&x, Player::new(&strip))
}

// The walk of S, played on four slots from outside.
fn walk_from_outside() -> Result<Ending, Refusal>
    ensures { OutsideGives outside result }
{
    let list = list_s()?;
    let mut memory = [1, 0, 0, 0];
    match ClosedStrip::from_outside(&list, &mut memory, 4, 1, 3) {
        Ok(strip) => walk_ending(&list, Player::new(&strip)),
        Err((_, refusal)) => Err(refusal),
    }
}
