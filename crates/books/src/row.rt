ghost use Rattle.std.specs.Prelude.{◌≡◌, ◌-◌, ◌<◌, ◌==◌, ◌↔◌, IsTrue};
ghost use Rattle.books.specs.Rows.{closed, come_on, finished, grown, job_age, opened, ran, row_fault};
ghost use Rattle.books.specs.Valid.{Valid, aged};
ghost use Rattle.std.specs.Result.{result_err};
ghost use Rattle.books.specs.declared.fault.Step.TheVariants.{Judge};

use crate::fault::{Fault, Step};
use readings::Reading;

/// A job: one refresh of a row, from its sample on.
#[derive(Clone, Copy, PartialEq, Eq, Debug)]
pub struct Job {
    /// The slots since the sample.
    pub age: u16,
    /// The work left: the slots that the job has yet to run.
    pub left: u8,
}

/// What the books keep of a row.
#[derive(Clone, Copy, Debug)]
pub struct Row {
    /// The slots since the sample of the value on show or, with none, since the row came on.
    pub age: u16,
    /// The open job, if there is one.
    pub job: Option<Job>,
    /// Whether a value is on show.
    pub shown: bool,
    /// The row's reading: id, work length and validity.
    pub reading: Reading,
}

impl PartialEq for Row {
    ghost use Rattle.books.specs.Rows.{same_row};
    ghost use Rattle.books.specs.Sames.{row_partial_equivalence};

    ghost eq = { same_row };

    ghost laws = { row_partial_equivalence };

    // Whether all that is kept of both rows is equal; the ages first, since they differ most.
    fn eq(&self, other: &Row) -> bool {
        self.age == other.age
            && self.job == other.job
            && self.shown == other.shown
            && self.reading == other.reading
    }
}

impl Eq for Row {
    ghost use Rattle.books.specs.Sames.{row_equivalence};

    ghost laws = { row_equivalence };
}

impl Row {
    /// A row as it comes on: no value on show, age 0, no job.
    pub fn new(reading: &Reading) -> Row
        ensures { result ≡ come_on reading.now }
    {
        Row {
            age: 0,
            job: None,
            shown: false,
            reading: *reading,
        }
    }

    /// Whether the row is valid once so many slots have passed: its age, grown by them, is at most
    /// its validity.
    pub fn is_valid_after(&self, slots: u16) -> bool
        ensures { IsTrue result ↔ Valid (aged slots self.now) }
    {
        u32::from(self.age) + u32::from(slots) <= u32::from(self.reading.validity)
    }

    // Refuses the row, number `row`, for what is wrong with it in a step of a slot.
    pub(crate) fn check(&self, step: Step, row: u8) -> Result<(), Fault>
        ensures { result_err result ≡ row_fault step self.now row }
    {
        match (step, self.job) {
            (Step::Sample, Some(_)) => Err(Fault::JobRule { row }),
            (Step::Run, None) => Err(Fault::JobRule { row }),
            (Step::Run, Some(job)) if job.left == 0 => Err(Fault::JobRule { row }),
            (Step::Judge, _) if !self.is_valid_after(0) => Err(Fault::Stale { row }),
            _ => Ok(()),
        }
    }

    // Refuses the row, number `row`, if it is not valid once a slot more has passed.
    pub(crate) fn check_next(&self, row: u8) -> Result<(), Fault>
        ensures { result_err result ≡ row_fault Judge (grown self.now) row }
    {
        if self.is_valid_after(1) {
            Ok(())
        } else {
            Err(Fault::Stale { row })
        }
    }

    // The slots for which the row stays valid: 0 where its age is past its validity.
    pub(crate) fn margin(&self) -> u16
        ensures value { result ≡ self.now.reading.validity - self.now.age }
        ensures valid { Valid self.now → Valid (aged result self.now) }
    {
        self.reading.validity.saturating_sub(self.age)
    }

    // Whether the row is that of an id.
    pub(crate) fn has_id(&self, id: u16) -> bool
        ensures { result ≡ (self.now.reading.id == id) }
    {
        self.reading.id == id
    }

    // Opens a job: age 0, all of the work left.
    pub(crate) fn open(&mut self)
        ensures { self.new ≡ opened self.old }
    {
        self.job = Some(Job {
            age: 0,
            left: self.reading.work,
        });
    }

    // Runs the open job for a slot.
    pub(crate) fn run(&mut self)
        ensures { self.new ≡ ran self.old }
    {
        if let Some(job) = &mut self.job {
            job.left = job.left.saturating_sub(1);
        }
    }

    // Lets a slot pass: all ages grow by one.
    pub(crate) fn grow(&mut self)
        requires age { self.old.age < 65535 }
        requires job { job_age self.old.job < 65535 }
        ensures { self.new ≡ grown self.old }
    {
        self.age += 1;
        if let Some(job) = &mut self.job {
            job.age += 1;
        }
    }

    // Closes a job without work left, and says whether there was one: its value goes on show, and
    // its age becomes the row's.
    pub(crate) fn close(&mut self) -> bool
        ensures value { result ≡ finished self.old.job }
        ensures after { self.new ≡ closed self.old }
    {
        match self.job {
            Some(job) if job.left == 0 => {
                self.shown = true;
                self.age = job.age;
                self.job = None;
                true
            }
            _ => false,
        }
    }
}
