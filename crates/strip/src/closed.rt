ghost use Rattle.std.specs.Prelude.{◌↔◌, IsTrue, length};
ghost use Rattle.readings.specs.Lists.{rows_of};
ghost use Rattle.strip.specs.WellClosed.{WellClosed};

use crate::kept::Kept;
use readings::{Reading, Readings, Refusal};

/// A closed strip: slots that name the rows of a list, and a loop among them with both ends inside.
#[derive(Drop)]
pub struct ClosedStrip<'a> {
    memory: &'a mut [u8],
    list: Kept,
    // the number of slots, which lie first in the memory
    count: u16,
    first: u16,
    last: u16,
    ghost law: { WellClosed (length list) memory.now count first last },
}

impl<'a> ClosedStrip<'a> {
    ghost use Rattle.std.specs.Prelude.{◌≡◌, ◌↔◌, [], IfErr, IfOk, IsOk, take};
    ghost use Rattle.readings.specs.Ranges.{WellMade};
    ghost use Rattle.readings.specs.Refusals.{content};
    ghost use Rattle.strip.specs.Held.{loop_first, loop_last, memory_of, list_rows, slots_of};
    ghost use Rattle.strip.specs.Strips.{IsClosed, strip_of};

    /// A strip that is given: its list, the bytes of its slots, which lie first in a memory, and
    /// its loop. Refused with 10 for any number or slot out of range: a strip has 1 to 32,767
    /// slots, all in the memory, a loop begins past slot 0 and ends on a slot, and a slot names a
    /// row of the list or none. The memory is not written, and comes back where it is refused.
    pub fn from_outside(
        list: &Readings,
        memory: &'a mut [u8],
        slots: usize,
        first: usize,
        last: usize,
    ) -> Result<ClosedStrip<'a>, (&'a mut [u8], Refusal)>
        ensures granted { IsOk result
            ↔ WellClosed (length (rows_of list.now)) memory.old slots first last }
        ensures list { IfOk result (λ c. list_rows c ≡ rows_of list.now) }
        ensures slots { IfOk result (λ c. slots_of c ≡ take slots memory.old) }
        ensures first { IfOk result (λ c. loop_first c ≡ first) }
        ensures last { IfOk result (λ c. loop_last c ≡ last) }
        ensures memory { IfOk result (λ c. memory_of c ≡ memory.entry) }
        ensures outside { IfErr result (λ e. content e.1 ≡ (10, [])) }
        ensures unchanged { IfErr result (λ e. e.0 ≡ memory.entry) }
    {
        if !is_well_closed(list.rows().len(), memory, slots, first, last) {
            return Err((memory, Refusal::Outside));
        }
        // each at most 32,767
        let (count, first, last) = (slots as u16, first as u16, last as u16);
        Ok(ClosedStrip::of(memory, Kept::new(list), count, first, last))
    }

    // A strip of these slots, which lie first in a memory, for a list, with this loop.
    pub(crate) fn of(
        memory: &'a mut [u8],
        list: Kept,
        count: u16,
        first: u16,
        last: u16,
    ) -> ClosedStrip<'a>
        requires { WellClosed (length list) memory.old count first last }
        ensures list { list_rows result ≡ list }
        ensures slots { slots_of result ≡ take count memory.old }
        ensures first { loop_first result ≡ first }
        ensures last { loop_last result ≡ last }
        ensures memory { memory_of result ≡ memory.entry }
    {
        ClosedStrip {
            memory,
            list,
            count,
            first,
            last,
        }
    }

    /// The list.
    pub fn list(&self) -> Readings
        ensures { rows_of result ≡ list_rows self.now }
    {
        self.list.list()
    }

    /// The rows of the list, first to last: 1 to 16, each in range, no two with one id, in order of
    /// validity. The slots are closed for them.
    pub fn rows(&self) -> &[Reading]
        ensures value { result.now ≡ list_rows self.now }
        ensures law { WellMade result.now }
        ensures closed { IsClosed (strip_of self.now) }
    {
        self.list.rows()
    }

    /// The slots: a byte for each, the row that it names, counted from 1, or 0 for none.
    pub fn slots(&self) -> &[u8]
        ensures { result.now ≡ slots_of self.now }
    {
        &self.memory[..usize::from(self.count)]
    }

    /// The first slot of the loop.
    pub fn first(&self) -> u16
        ensures { result ≡ loop_first self.now }
    {
        self.first
    }

    /// The last slot inside the loop.
    pub fn last(&self) -> u16
        ensures { result ≡ loop_last self.now }
    {
        self.last
    }

    /// Gives the whole memory back, the bytes past the slots too.
    pub fn take_apart(self) -> &'a mut [u8]
        ensures { result ≡ memory_of self.entry }
    {
        let ClosedStrip { memory, .. } = self;
        memory
    }
}

// Whether the first `slots` bytes of a memory make a strip for so many rows that is closed with
// this loop.
fn is_well_closed(rows: usize, memory: &[u8], slots: usize, first: usize, last: usize) -> bool
    ensures { IsTrue result ↔ WellClosed rows memory.now slots first last }
{
    (1..=32_767).contains(&slots)
        && slots <= memory.len()
        && 1 <= first
        && first <= last
        && last < slots
        && memory[..slots].iter().all(|row| usize::from(*row) <= rows)
}
