ghost use Rattle.books.specs.Fresh.{Fresh};
ghost use Rattle.books.specs.Valid.{Spare};
ghost use Rattle.std.specs.Prelude.{◌≡◌, ◌≤◌, length, take};

use crate::fault::Fault;
use crate::row::Row;
use readings::{Reading, Readings};
use slot::{carry, check_grown, check_late, check_run, check_samples, next_margin, take_all};

mod slot;

/// The books of a list: a row for each of its readings, in the order of the list. No row's age is
/// ever above its validity, and no job is older than the row's age.
#[derive(Clone, Copy)]
pub struct Books {
    rows: [Row; 16],
    count: usize,
    // a number of slots that may pass before any row can be stale
    margin: u16,
    ghost long: { length rows ≡ 16 },
    ghost few: { count ≤ 16 },
    ghost fresh: { Fresh (take count rows) },
    ghost spare: { Spare (take count rows) margin },
}

impl Books {
    ghost use Rattle.books.specs.Ages.{AgesCounted, StayEqual};
    ghost use Rattle.books.specs.Crossings.{crossed, crossing_fault};
    ghost use Rattle.books.specs.Held.{rows_of};
    ghost use Rattle.books.specs.Lookups.{Idle, row_of};
    ghost use Rattle.books.specs.Parts.{grown_fault};
    ghost use Rattle.books.specs.Rows.{come_on, same_rows};
    ghost use Rattle.books.specs.Slots.{fault, shown_row, slot};
    ghost use Rattle.readings.specs.Firsts.{first_of};
    ghost use Rattle.readings.specs.Lists.{rows_of as readings_of};
    ghost use Rattle.std.specs.Prelude.{true, map, ◌↔◌, IsTrue, IfErr, IfOk, OnErr, OnOk};
    ghost use Rattle.std.specs.Result.{result_err};

    // The books of the first `count` rows of an array.
    fn of(rows: [Row; 16], count: usize) -> Books
        requires few { count ≤ 16 }
        requires fresh { Fresh (take count rows) }
        ensures { rows_of result ≡ take count rows }
    {
        Books {
            rows,
            count,
            margin: 0,
        }
    }

    /// The books of a list whose rows all come on now. Whatever course they are then taken along,
    /// ages count from samples as long as no slot has a fault.
    pub fn new(list: &Readings) -> Books
        ensures value { rows_of result ≡ map come_on (readings_of list.now) }
        ensures ages { AgesCounted (rows_of result) }
    {
        let readings = list.rows();
        let mut rows = [Row::new(&Reading::default()); 16];
        for (k, reading) in readings.iter().enumerate() {
            rows[k] = Row::new(reading);
        }
        Books::of(rows, readings.len())
    }

    /// The rows, first to last: at most 16, no age above its validity.
    pub fn rows(&self) -> &[Row]
        ensures value { result.now ≡ rows_of self.now }
        ensures law { Fresh result.now }
    {
        &self.rows[..self.count]
    }

    // Refuses the first row that is not valid once all ages have grown: none within the margin.
    fn check_ages(&self) -> Result<(), Fault>
        ensures { result_err result
            ≡ first_of (grown_fault (rows_of self.now)) 0 (length (rows_of self.now)) }
    {
        if self.margin > 0 {
            return Ok(());
        }
        check_grown(self.rows())
    }

    // Refuses the first fault of a slot, in the order of its steps.
    fn check(&self, samples: u16, run: u8) -> Result<(), Fault>
        ensures { result_err result ≡ fault (samples, run) (rows_of self.now) }
    {
        check_samples(self.rows(), samples)?;
        check_run(self.rows(), samples, run)?;
        // judged before any row is changed: steps 1 and 2 leave the rows' ages as they are
        self.check_ages()
    }

    /// Takes the books through a slot with this answer: the rows to sample as a mask, row k
    /// standing for 2^(k - 1), and the row to run, or 0. Returns the row whose value went on show,
    /// counted from 1, if one did. Fails with the first fault of the slot, in the order of its
    /// steps, and then the books are as they were.
    pub fn take(&mut self, answer: (u16, u8)) -> Result<Option<u8>, Fault>
        ensures shown { IfOk result (λ row. row ≡ shown_row answer (rows_of self.old)) }
        ensures ok { OnOk result (rows_of self.new ≡ slot answer (rows_of self.old)) }
        ensures faultless { OnOk result (fault answer (rows_of self.old) ≡ None) }
        ensures err { IfErr result (λ f. fault answer (rows_of self.old) ≡ Some f) }
        ensures unchanged { OnErr result (self.new ≡ self.old) }
    {
        let (samples, run) = answer;
        self.check(samples, run)?;
        let rows = &mut self.rows[0..self.count];
        let shown = take_all(rows, samples, run);
        self.margin = next_margin(rows, self.margin);
        Ok(shown)
    }

    /// Whether all that is kept of each row is equal: then both stay equal under equal answers.
    #[tactic(auto, using(crate::proofs::Sames::compared, crate::proofs::Sames::lasts))]
    pub fn same(&self, other: &Books) -> bool
        ensures value { result ≡ same_rows (rows_of self.now) (rows_of other.now) }
        ensures exact { IsTrue result ↔ (rows_of self.now ≡ rows_of other.now) }
        ensures lasting { result ≡ true → StayEqual (rows_of self.now) (rows_of other.now) }
    {
        self.rows() == other.rows()
    }

    /// The row with an id, if there is one.
    pub fn find(&self, id: u16) -> Option<Row>
        ensures { result ≡ row_of (rows_of self.now) id }
    {
        self.rows().iter().find(|row| row.has_id(id)).copied()
    }

    /// Whether no job is open.
    pub fn is_idle(&self) -> bool
        ensures { IsTrue result ↔ Idle (rows_of self.now) }
    {
        self.rows().iter().all(|row| row.job.is_none())
    }

    /// The books after a crossing from these to a list: shared ids keep age and value, other
    /// readings of the list come on with age 0, and no job is open. Fails with the first row whose
    /// age is above its new validity.
    pub fn cross(&self, list: &Readings) -> Result<Books, Fault>
        ensures ok { IfOk result (λ b.
            rows_of b ≡ crossed (rows_of self.now) (readings_of list.now)) }
        ensures faultless { OnOk result
            (crossing_fault (rows_of self.now) (readings_of list.now) ≡ None) }
        ensures err { IfErr result (λ f.
            crossing_fault (rows_of self.now) (readings_of list.now) ≡ Some f) }
    {
        let given = list.rows();
        let mut rows = [Row::new(&Reading::default()); 16];
        for (k, reading) in given.iter().enumerate() {
            rows[k] = carry(reading, self.find(reading.id));
        }
        check_late(&rows[..given.len()])?;
        Ok(Books::of(rows, given.len()))
    }
}
