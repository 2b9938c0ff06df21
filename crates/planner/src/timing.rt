ghost use Rattle.planner.specs.Periods.{half_timing, timing_of};
ghost use Rattle.std.specs.Prelude.{◌≡◌, ◌-◌, ◌≤◌};

use readings::Reading;

/// How a row is refreshed: a job is sampled every period.
#[derive(Clone, Copy, PartialEq, Eq, Debug, Default)]
pub struct Timing {
    /// The work length of the row's jobs, in slots.
    pub work: u8,
    /// The slots from one sample to the next.
    pub period: u16,
}

impl Timing {
    // A row whose period is half of its validity, rounded down.
    pub(crate) fn half_half(reading: &Reading) -> Timing
        ensures { result ≡ half_timing reading.now }
    {
        Timing {
            work: reading.work,
            period: reading.validity / 2,
        }
    }

    // A row whose period is what its response time leaves of its validity.
    pub(crate) fn more_less(reading: &Reading, response: u16) -> Timing
        requires { response ≤ reading.now.validity }
        ensures { result ≡ timing_of reading.now (reading.now.validity - response) }
    {
        Timing {
            work: reading.work,
            period: reading.validity - response,
        }
    }
}
