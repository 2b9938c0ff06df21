ghost use Rattle.std.specs.Prelude.{◌≡◌, ◌*◌, ◌≤◌};
ghost use Rattle.planner.specs.Response.{demand, response_time, row_demand};
ghost use Rattle.planner.specs.Timing.{Positive};
ghost use Rattle.rows.specs.Held.{rows_of};

use crate::timing::Timing;
use readings::Reading;
use rows::Rows;

// The slots that the rows above take out of so many slots.
fn demand(above: &Rows<Timing>, slots: u32) -> u32
    requires bounded { slots ≤ 2047 }
    requires positive { Positive (rows_of above.now) }
    ensures value { result ≡ demand (rows_of above.now) slots }
    ensures bound { result ≤ 521985 * 16 }
{
    let mut taken = 0;
    for row in above.as_slice() {
        taken += row_demand(row, slots);
    }
    taken
}

// The slots that a row takes out of so many slots: its work length once a period.
fn row_demand(row: &Timing, slots: u32) -> u32
    requires bounded { slots ≤ 2047 }
    requires positive { 1 ≤ row.now.period }
    ensures value { result ≡ row_demand row.now slots }
    ensures bound { result ≤ 521985 }
{
    slots.div_ceil(u32::from(row.period)) * u32::from(row.work)
}

// The response time of a row below these, if twice that is at most its validity.
pub(crate) fn response_time(above: &Rows<Timing>, reading: &Reading) -> Option<u16>
    requires bounded { reading.now.validity ≤ 4095 }
    requires positive { Positive (rows_of above.now) }
    ensures { result
        ≡ response_time (rows_of above.now) reading.now.work reading.now.validity }
{
    let own = u32::from(reading.work);
    let most = u32::from(reading.validity / 2);
    let mut slots = own;
    while slots <= most {
        let needed = own + demand(above, slots);
        if needed == slots {
            return u16::try_from(slots).ok();
        }
        slots = needed;
    }
    None
}
