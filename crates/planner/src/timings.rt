ghost use Rattle.planner.specs.Timing.{WellTimed};
ghost use Rattle.rows.specs.Held.{rows_of as held};

use crate::response::response_time;
use crate::timing::Timing;
use readings::{Readings, Refusal};
use rows::Rows;

/// How each row of a list is refreshed, for 1 to 16 rows: each has a period of at least one slot.
#[derive(Clone, Copy)]
pub struct Timings {
    rows: Rows<Timing>,
    ghost law: { WellTimed (held rows) },
}

impl Timings {
    ghost use Rattle.std.specs.Prelude.{◌≡◌, Err, IfErr, IfOk, Ok};
    ghost use Rattle.planner.specs.Periods.{Planned, half_half, more_less};
    ghost use Rattle.planner.specs.Timings.{timings_of};
    ghost use Rattle.readings.specs.Lists.{rows_of};
    ghost use Rattle.readings.specs.Refusals.{content};

    /// Half-Half: each period is half of the row's validity, rounded down.
    pub fn half_half(list: &Readings) -> Timings
        ensures { timings_of result ≡ half_half (rows_of list.now) }
    {
        let mut rows = Rows::new(Timing::default());
        for reading in list.rows() {
            rows.push(Timing::half_half(reading));
        }
        Timings { rows }
    }

    /// More-Less: each period is what the row's response time leaves of its validity. Refused with
    /// 5 at the first row without a response time of at most half its validity.
    pub fn more_less(list: &Readings) -> Result<Timings, Refusal>
        ensures ok { IfOk result (λ t. more_less (rows_of list.now) ≡ Ok (timings_of t)) }
        ensures err { IfErr result (λ e. more_less (rows_of list.now) ≡ Err (content e)) }
        ensures law { Planned (rows_of list.now) (more_less (rows_of list.now)) }
    {
        let mut rows = Rows::new(Timing::default());
        for (k, reading) in list.rows().iter().enumerate() {
            // a place below 16
            let none = Refusal::Response { row: k as u8 + 1 };
            let response = response_time(&rows, reading).ok_or(none)?;
            rows.push(Timing::more_less(reading, response));
        }
        Ok(Timings { rows })
    }

    /// The rows, first to last: 1 to 16, each with a period of at least one slot.
    pub fn rows(&self) -> &[Timing]
        ensures value { result.now ≡ timings_of self.now }
        ensures law { WellTimed result.now }
    {
        self.rows.as_slice()
    }
}
