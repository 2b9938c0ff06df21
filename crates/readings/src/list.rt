ghost use Rattle.std.specs.Prelude.{◌≡◌, ◌<◌, ◌≤◌, All, length};
ghost use Rattle.readings.specs.Proposals.{has_id, is_list_length, is_out_of_order, row_refusal, rows_refusal};
ghost use Rattle.readings.specs.Ranges.{WellMade, blank};
ghost use Rattle.readings.specs.Refusals.{refusal_of};
ghost use Rattle.rows.specs.Held.{past, rows_of as held};

use crate::reading::{Proposal, Reading};
use crate::refusal::Refusal;
use rows::Rows;

/// A list of 1 to 16 readings, its rows: each in range, no two with one id, in order of validity.
/// Past the last row all numbers are 0.
#[derive(Clone, Copy)]
pub struct Readings {
    rows: Rows<Reading>,
    ghost law: { WellMade (held rows) },
    ghost rest: { All (λ r. r ≡ blank) (past rows) },
}

impl Readings {
    ghost use Rattle.std.specs.Prelude.{◌↔◌, IfErr, IfOk, IsOk, None, Some, map};
    ghost use Rattle.readings.specs.Lists.{rows_of};
    ghost use Rattle.readings.specs.Proposals.{kept, list_refusal};
    ghost use Rattle.readings.specs.Refusals.{content};

    /// The list of these readings. Refused with the first thing wrong: 1 for their count, then row
    /// by row 2 for work length or validity, 3 for the id, 4 for the order. What makes a list is
    /// granted, and nothing else is.
    pub fn new(given: &[Proposal]) -> Result<Readings, Refusal>
        ensures ok { IfOk result (λ l. rows_of l ≡ map kept given.now) }
        ensures err { IfErr result (λ e. list_refusal given.now ≡ Some (content e)) }
        ensures granted { IsOk result ↔ (list_refusal given.now ≡ None) }
        ensures exact { IsOk result ↔ WellMade (map kept given.now) }
    {
        if !is_list_length(given.len()) {
            return Err(Refusal::Count);
        }
        check_rows(given)?;
        let mut rows = Rows::new(Reading::default());
        for proposal in given {
            rows.push(proposal.kept());
        }
        Ok(Readings { rows })
    }

    /// The rows, first to last: 1 to 16, each in range, no two with one id, in order of validity.
    pub fn rows(&self) -> &[Reading]
        ensures value { result.now ≡ rows_of self.now }
        ensures law { WellMade result.now }
    {
        self.rows.as_slice()
    }
}

// Whether a list may have so many rows.
fn is_list_length(rows: usize) -> bool
    ensures { result ≡ is_list_length rows }
{
    (1..=16).contains(&rows)
}

// Refuses the first row with something wrong.
fn check_rows(rows: &[Proposal]) -> Result<(), Refusal>
    requires { length rows.now ≤ 16 }
    ensures { refusal_of result ≡ rows_refusal rows.now }
{
    for (k, row) in rows.iter().enumerate() {
        check_row(&rows[..k], row)?;
    }
    Ok(())
}

// Refuses a row below these for the first thing that is wrong with it.
fn check_row(above: &[Proposal], it: &Proposal) -> Result<(), Refusal>
    requires { length above.now < 16 }
    ensures { refusal_of result ≡ row_refusal above.now it.now }
{
    // a place below 16
    let row = above.len() as u8 + 1;
    if !it.is_in_range() {
        return Err(Refusal::Range { row });
    }
    if !(1..=65535).contains(&it.id) || has_id(it.id, above) {
        return Err(Refusal::Id { row });
    }
    if is_out_of_order(above, it) {
        return Err(Refusal::Order { row });
    }
    Ok(())
}

// Whether one of these rows has the id.
fn has_id(id: u32, rows: &[Proposal]) -> bool
    ensures { result ≡ has_id id rows.now }
{
    rows.iter().any(|row| row.id == id)
}

// Whether a row has a smaller validity than the last of the rows above it.
fn is_out_of_order(above: &[Proposal], it: &Proposal) -> bool
    ensures { result ≡ is_out_of_order above.now it.now }
{
    above.last().is_some_and(|last| it.validity < last.validity)
}
