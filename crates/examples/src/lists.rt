ghost use Rattle.examples.specs.Lists.{readings_s, readings_t, readings_u, readings_w, readings_x, readings_y, readings_z};
ghost use Rattle.readings.specs.Lists.{rows_of};
ghost use Rattle.std.specs.Prelude.{◌≡◌, IsOkAnd};

use readings::{Proposal, Readings, Refusal};

/// List X: work 1, 2, 2 and validities 5, 10, 20 slots. Never refused.
#[tactic(auto, unfolding(readings::specs::Firsts::first_of))]
pub fn list_x() -> Result<Readings, Refusal>
    ensures { IsOkAnd result (λ l. rows_of l ≡ readings_x) }
{
    Readings::new(&[
        Proposal::new(7, 1, 5),
        Proposal::new(8, 2, 10),
        Proposal::new(9, 2, 20),
    ])
}

/// List Y: work 2, 2, 2 and validities 8, 10, 12 slots. Never refused.
#[tactic(auto, unfolding(readings::specs::Firsts::first_of))]
pub fn list_y() -> Result<Readings, Refusal>
    ensures { IsOkAnd result (λ l. rows_of l ≡ readings_y) }
{
    Readings::new(&[
        Proposal::new(7, 2, 8),
        Proposal::new(8, 2, 10),
        Proposal::new(9, 2, 12),
    ])
}

/// List Z: work 2, 3 and validities 6, 13 slots. Never refused.
#[tactic(auto, unfolding(readings::specs::Firsts::first_of))]
pub fn list_z() -> Result<Readings, Refusal>
    ensures { IsOkAnd result (λ l. rows_of l ≡ readings_z) }
{
    Readings::new(&[Proposal::new(7, 2, 6), Proposal::new(8, 3, 13)])
}

/// List W: ids 7 and 9 of X with other validities, and 12 in place of 8. Never refused.
#[tactic(auto, unfolding(readings::specs::Firsts::first_of))]
pub fn list_w() -> Result<Readings, Refusal>
    ensures { IsOkAnd result (λ l. rows_of l ≡ readings_w) }
{
    Readings::new(&[
        Proposal::new(7, 1, 6),
        Proposal::new(9, 2, 9),
        Proposal::new(12, 2, 20),
    ])
}

/// List U: id 9 of X alone. Its validity is below every age that X has it at while no job is open.
/// Never refused.
#[tactic(auto, unfolding(readings::specs::Firsts::first_of))]
pub fn list_u() -> Result<Readings, Refusal>
    ensures { IsOkAnd result (λ l. rows_of l ≡ readings_u) }
{
    Readings::new(&[Proposal::new(9, 2, 4)])
}

/// List T: three rows of work 1 and validity 4 slots. Never refused.
#[tactic(auto, unfolding(readings::specs::Firsts::first_of))]
pub fn list_t() -> Result<Readings, Refusal>
    ensures { IsOkAnd result (λ l. rows_of l ≡ readings_t) }
{
    Readings::new(&[
        Proposal::new(7, 1, 4),
        Proposal::new(8, 1, 4),
        Proposal::new(9, 1, 4),
    ])
}

/// List S: one row of work 1 and validity 2 slots. Never refused.
#[tactic(auto, unfolding(readings::specs::Firsts::first_of))]
pub fn list_s() -> Result<Readings, Refusal>
    ensures { IsOkAnd result (λ l. rows_of l ≡ readings_s) }
{
    Readings::new(&[Proposal::new(7, 1, 2)])
}
