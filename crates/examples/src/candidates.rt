use crate::example::more_less_policy;
use crate::kinds::{Inactive, NeverAlike};
use crate::lists::{list_u, list_w, list_x};
use periodic::Periodic;
use policy::Bank;
use readings::{Readings, Refusal};
use std::fmt;
use strip::{ClosedStrip, Player};

/// A list and a policy for it, with the name that they go by.
#[derive(Drop)]
pub struct Candidate<P> {
    /// The name.
    pub name: &'static str,
    /// The list.
    pub list: Readings,
    /// The policy, at the position of its first slot.
    pub policy: P,
}

impl<P> Candidate<P> {
    fn new(name: &'static str, list: Readings, policy: P) -> Candidate<P> {
        Candidate { name, list, policy }
    }
}

// The name alone.
impl<P> fmt::Display for Candidate<P> {
    fn fmt<W: fmt::Write>(&self, f: &mut fmt::Formatter<W>) -> fmt::Result {
        let name = self.name;
        write!(f, "{name}")
    }
}

/// A bank of a policy by More-Less and one that never samples or runs.
pub type Pair = Bank<Periodic, Inactive>;

/// What the boards of the runs are asked to run.
#[derive(Drop)]
pub struct Candidates {
    /// List X by More-Less.
    pub x: Candidate<Periodic>,
    /// List W by More-Less.
    pub w: Candidate<Periodic>,
    /// List U by More-Less.
    pub u: Candidate<Periodic>,
    /// List X by a policy that never samples or runs.
    pub inactive: Candidate<Inactive>,
    /// List X by More-Less with a comparison that always says no.
    pub never_alike: Candidate<NeverAlike<Periodic>>,
    /// List X by a bank that uses its first policy.
    pub first_of_pair: Candidate<Pair>,
    /// List X by a bank that uses its second policy.
    pub second_of_pair: Candidate<Pair>,
}

impl Candidates {
    // All of them; none is refused.
    pub(crate) fn new() -> Result<Candidates, Refusal> {
        let x = list_x()?;
        let w = list_w()?;
        let u = list_u()?;
        let of_x = more_less_policy(&x)?;
        Ok(Candidates {
            x: Candidate::new("X by More-Less", x, of_x),
            w: Candidate::new("W by More-Less", w, more_less_policy(&w)?),
            u: Candidate::new("U by More-Less", u, more_less_policy(&u)?),
            inactive: Candidate::new("X by a policy that never samples or runs", x, Inactive),
            never_alike: Candidate::new(
                "X by More-Less with a comparison that always says no",
                x,
                NeverAlike(of_x),
            ),
            first_of_pair: Candidate::new("X by the first policy of a bank", x, pair(of_x, 1)),
            second_of_pair: Candidate::new("X by the second policy of a bank", x, pair(of_x, 2)),
        })
    }
}

// A bank of this policy and one that never samples or runs, which uses the one with this number.
fn pair(first: Periodic, used: u8) -> Pair {
    Bank::new(first, Inactive, used)
}

/// A bank of a policy by More-Less and a player of a strip.
pub type MoreLessOrStrip<'s> = Bank<Periodic, Player<'s>>;

/// List X by each policy of a bank, for a run with a strip.
#[derive(Drop)]
pub struct StripCandidates<'s> {
    /// List X by the first policy, More-Less.
    pub more_less: Candidate<MoreLessOrStrip<'s>>,
    /// List X by the second policy, which plays a strip that was laid by deferrable scheduling.
    pub deferrable: Candidate<MoreLessOrStrip<'s>>,
}

impl<'s> StripCandidates<'s> {
    // Both, by a strip of X; neither is refused.
    pub(crate) fn new(strip: &'s ClosedStrip<'_>) -> Result<StripCandidates<'s>, Refusal> {
        let x = strip.list();
        let of_x = more_less_policy(&x)?;
        let player = Player::new(strip);
        Ok(StripCandidates {
            more_less: Candidate::new("X by More-Less", x, Bank::new(of_x, player, 1)),
            deferrable: Candidate::new("X by deferrable scheduling", x, Bank::new(of_x, player, 2)),
        })
    }
}
