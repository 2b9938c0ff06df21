ghost use Rattle.std.specs.Prelude.{length};
ghost use Rattle.books.specs.Held.{rows_of};
ghost use Rattle.strip.specs.Walked.{InWalk};

use crate::mask::samples;
use books::{Books, Fault};
use repeat::Stepper;

// The slots of a strip, walked with books.
#[derive(Clone, Copy)]
pub(crate) struct Closer<'s> {
    slots: &'s [u8],
    // the next slot
    place: u16,
    books: Books,
    ghost law: { InWalk slots.now place (length (rows_of books)) },
}

impl<'s> Closer<'s> {
    ghost use Rattle.std.specs.Prelude.{◌≡◌, ◌≤◌, All};
    ghost use Rattle.strip.specs.Closers.{closing_of};
    ghost use Rattle.strip.specs.Closings.{closing_answer, row_named, row_rests};

    // A walk at its start.
    pub(crate) fn new(slots: &'s [u8], books: Books) -> Closer<'s>
        requires few { length slots.now ≤ 32767 }
        requires named { All (λ row. row ≤ length (rows_of books)) slots.now }
        ensures { closing_of result
            ≡ record { slots = slots.now; place = 0; rows = rows_of books } }
    {
        Closer {
            slots,
            place: 0,
            books,
        }
    }

    // The row that the next slot names, or 0.
    fn row(&self) -> u8
        ensures { result ≡ row_named (closing_of self.now) }
    {
        self.slots
            .get(usize::from(self.place))
            .copied()
            .unwrap_or(0)
    }

    // Whether it has no open job.
    fn rests(&self) -> bool
        ensures { result ≡ row_rests (closing_of self.now) }
    {
        let k = usize::from(self.row().saturating_sub(1));
        self.books.rows().get(k).is_none_or(|row| row.job.is_none())
    }

    // The answer for the next slot.
    fn answer(&self) -> (u16, u8)
        ensures { result ≡ closing_answer (closing_of self.now) }
    {
        let row = self.row();
        let rows = self.books.rows().len();
        (samples(rows, self.place, row, self.rests()), row)
    }
}

impl Stepper for Closer<'_> {
    ghost use Rattle.strip.specs.Closers.{closing_of};
    ghost use Rattle.strip.specs.Closings.{Closing, closing_meaning};

    type Fault = Fault;

    ghost State = { Closing };

    ghost state = { closing_of };

    ghost meaning = { closing_meaning };

    fn step(&mut self) -> Result<(), Fault> {
        let answer = self.answer();
        self.books.take(answer)?;
        if usize::from(self.place) < self.slots.len() {
            self.place += 1;
        }
        Ok(())
    }

    // The books alone.
    fn same(&self, other: &Self) -> bool {
        self.books.same(&other.books)
    }

    fn copy(&self) -> Self {
        *self
    }
}
