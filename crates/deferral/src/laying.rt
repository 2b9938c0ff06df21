ghost use Rattle.std.specs.Prelude.{◌≡◌, ◌≤◌, true, false, Err, IfErr, IfOk, OnErr, Ok, length, replicate};
ghost use Rattle.deferral.specs.Laid.{Laid};
ghost use Rattle.deferral.specs.Laying.{is_strip_length, lay, lay_rows};
ghost use Rattle.readings.specs.Lists.{rows_of};
ghost use Rattle.readings.specs.Ranges.{WellMade};
ghost use Rattle.readings.specs.Refusals.{content};

use crate::row::lay_row;
use readings::{Reading, Readings, Refusal};

/// Lays a list on these slots by deferrable scheduling: row by row, each row's jobs up to the limit
/// that the row above left. Answers the limit that the last row leaves, a number of slots from the
/// first. Each slot then holds the row that runs in it, counted from 1, or 0 for none; what it held
/// before is lost. Refused with 6 unless there are 1 to 32,767 slots, and they then hold what they
/// held; with 7 for a row whose first job lacks room below its limit, and with 8 for one with a
/// later job that lacks room, and all slots then hold 0.
pub fn lay(slots: &mut [u8], list: &Readings) -> Result<u16, Refusal>
    ensures ok { IfOk result (λ limit.
        lay (rows_of list.now) (length slots.old) ≡ Ok (slots.new, limit)) }
    ensures err { IfErr result (λ e.
        lay (rows_of list.now) (length slots.old) ≡ Err (content e)) }
    ensures law { IfOk result (λ limit.
        Laid (rows_of list.now) (length slots.old) slots.new limit) }
    ensures unwritten { is_strip_length (length slots.old) ≡ false → slots.new ≡ slots.old }
    ensures cleared { OnErr result (is_strip_length (length slots.old) ≡ true
        → slots.new ≡ replicate (length slots.old) 0) }
{
    if !(1..=32767).contains(&slots.len()) {
        return Err(Refusal::StripLength);
    }
    slots.fill(0);
    // at most 32,767
    let limit = slots.len() as u16;
    let laid = lay_rows(slots, list.rows(), limit);
    if laid.is_err() {
        slots.fill(0);
    }
    laid
}

// Lays these rows, each up to the limit that the row above leaves, and answers the limit that the
// last one leaves.
fn lay_rows(slots: &mut [u8], rows: &[Reading], mut limit: u16) -> Result<u16, Refusal>
    requires strip { length slots.old ≤ 32767 }
    requires within { limit ≤ length slots.old }
    requires rows { WellMade rows.now }
    ensures ok { IfOk result (λ left. lay_rows 0 rows.now limit slots.old ≡ Ok (slots.new, left)) }
    ensures err { IfErr result (λ e. lay_rows 0 rows.now limit slots.old ≡ Err (content e)) }
{
    for (k, reading) in rows.iter().enumerate() {
        // a place below 16
        limit = lay_row(slots, k as u8 + 1, reading, limit)?;
    }
    Ok(limit)
}
