ghost use Rattle.std.specs.Prelude.{◌≡◌, List, take};
ghost use Rattle.readings.specs.Lists.{rows_of};
ghost use Rattle.readings.specs.Ranges.{WellMade};
ghost use Rattle.readings.specs.declared.reading.Reading.{Reading};
ghost use Rattle.strip.specs.Arrays.{InArray};

use readings::{Proposal, Reading, Readings};
use std::marker::Model;

// The rows of a list, which can stand beside a `&mut` in a `Result`, as a list itself cannot.
#[derive(Drop)]
pub(crate) struct Kept {
    rows: [Reading; 16],
    count: usize,
}

impl Model for Kept {
    ghost Value = { List Reading };

    ghost view = { λ kept. take kept.count kept.rows };

    ghost invariant = { λ kept. InArray kept.rows kept.count };
}

impl Kept {
    // The rows of this list.
    pub(crate) fn new(list: &Readings) -> Kept
        ensures { result ≡ rows_of list.now }
    {
        let given = list.rows();
        let mut rows = [Reading::default(); 16];
        rows[..given.len()].copy_from_slice(given);
        Kept {
            rows,
            count: given.len(),
        }
    }

    // The rows, first to last.
    pub(crate) fn rows(&self) -> &[Reading]
        ensures value { result.now ≡ self.now }
        ensures law { WellMade result.now }
    {
        &self.rows[..self.count]
    }

    // The list of these rows.
    pub(crate) fn list(&self) -> Readings
        ensures { rows_of result ≡ self.now }
    {
        let rows = self.rows();
        let mut given = [Proposal::default(); 16];
        for (k, row) in rows.iter().enumerate() {
            given[k] = Proposal::new(row.id.into(), row.work.into(), row.validity.into());
        }
        Readings::new(&given[..rows.len()]).unwrap()
    }
}
