ghost use Rattle.std.specs.Prelude.{◌≡◌, ◌-◌, ◌≤◌, ◌==◌, length, slice_index_or};
ghost use Rattle.books.specs.Slots.{each_from};
ghost use Rattle.strip.specs.Parts.{sampled, worked};
ghost use Rattle.strip.specs.Playing.{InPlay};
ghost use Rattle.strip.specs.Positions.{no_work, resting};

use crate::closed::ClosedStrip;
use crate::mask::samples;
use crate::work::RowWork;
use policy::Policy;

/// A policy that plays a closed strip: each slot runs the row that it names, and after the loop's
/// last slot comes its first. The strip lends it the slots.
#[derive(Clone, Copy)]
pub struct Player<'s> {
    slots: &'s [u8],
    first: u16,
    last: u16,
    // the next slot
    place: u16,
    rows: [RowWork; 16],
    count: usize,
    ghost law: { InPlay slots.now first last place rows count },
}

impl<'s> Player<'s> {
    ghost use Rattle.strip.specs.Held.{list_rows, loop_first, loop_last, slots_of};
    ghost use Rattle.strip.specs.Players.{position_of};
    ghost use Rattle.strip.specs.Plays.{Plays};
    ghost use Rattle.strip.specs.Positions.{start_at, strip_course, strip_next};
    ghost use Rattle.strip.specs.Sames.{same_numbers};

    /// A player of a strip at its start.
    pub fn new(strip: &'s ClosedStrip<'_>) -> Player<'s>
        ensures start { position_of result
            ≡ start_at (list_rows strip.now) (slots_of strip.now) (loop_first strip.now)
            (loop_last strip.now) }
        ensures plays { Plays (list_rows strip.now) (slots_of strip.now) (loop_first strip.now)
            (loop_last strip.now) (strip_course (position_of result)) }
    {
        let readings = strip.rows();
        let mut rows = [RowWork::default(); 16];
        for (k, reading) in readings.iter().enumerate() {
            rows[k] = RowWork::new(reading);
        }
        Player {
            slots: strip.slots(),
            first: strip.first(),
            last: strip.last(),
            place: 0,
            rows,
            count: readings.len(),
        }
    }

    // The work of its rows, first to last.
    fn rows(&self) -> &[RowWork]
        ensures { result.now ≡ (position_of self.now).rows }
    {
        &self.rows[..self.count]
    }

    // The place of the slot after the next one: after the loop's last slot comes its first.
    fn next_place(&self) -> u16
        ensures value { result ≡ (strip_next (position_of self.now)).place }
        ensures here { result ≤ self.now.last }
    {
        if self.place == self.last {
            self.first
        } else {
            self.place + 1
        }
    }

    // Whether the numbers kept are equal.
    fn same_numbers(&self, other: &Player<'_>) -> bool
        ensures { result ≡ same_numbers (position_of self.now) (position_of other.now) }
    {
        self.place == other.place
            && self.rows() == other.rows()
            && self.first == other.first
            && self.last == other.last
    }
}

impl Policy for Player<'_> {
    ghost use Rattle.strip.specs.Meanings.{strip_meaning};
    ghost use Rattle.strip.specs.Players.{position_of};
    ghost use Rattle.strip.specs.Positions.{Position as StripPosition};
    ghost use Rattle.strip.specs.Sames.{same_position};
    ghost use Rattle.std.specs.Prelude.{◌↔◌, IsTrue};

    ghost Position = { StripPosition };

    ghost position = { position_of };

    ghost meaning = { strip_meaning };

    fn step(&mut self) -> (u16, u8) {
        let row = self.slots[usize::from(self.place)];
        let rows = &mut self.rows[0..self.count];
        let samples = samples(rows.len(), self.place, row, rests(rows, row));
        renew(rows, self.place, row);
        run(rows, row);
        self.place = self.next_place();
        (samples, row)
    }

    // Whether all that is kept is equal: the few numbers first, then the slots.
    fn same(&self, other: &Self) -> bool
        ensures value { result ≡ same_position (position_of self.now) (position_of other.now) }
        ensures exact { IsTrue result ↔ (position_of self.now ≡ position_of other.now) }
    {
        self.same_numbers(other) && self.slots == other.slots
    }

    fn copy(&self) -> Self {
        *self
    }
}

// Whether the row that is named has no work left, which none has past the last row.
fn rests(rows: &[RowWork], row: u8) -> bool
    ensures { result ≡ ((slice_index_or rows.now (row - 1) no_work).left == 0) }
{
    rows.get(usize::from(row.saturating_sub(1)))
        .is_none_or(|work| work.left == 0)
}

// Begins the work of a slot's samples anew: in slot 0 that of every row, and later that of the row
// that is named, if it rests.
fn renew(rows: &mut [RowWork], place: u16, row: u8)
    requires { row ≤ length rows.old }
    ensures { rows.new ≡ each_from (sampled place row) 0 rows.old }
{
    if place == 0 {
        for work in rows.iter_mut() {
            work.renew();
        }
    } else if row > 0 {
        let work = &mut rows[usize::from(row) - 1];
        if work.left == 0 {
            work.renew();
        }
    }
}

// Runs the row that is named, if there is one, for a slot.
fn run(rows: &mut [RowWork], row: u8)
    requires { row ≤ length rows.old }
    ensures { rows.new ≡ each_from (worked row) 0 rows.old }
{
    if row > 0 {
        rows[usize::from(row) - 1].run();
    }
}
