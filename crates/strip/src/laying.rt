ghost use Rattle.std.specs.Option.{ForSome};
ghost use Rattle.std.specs.Prelude.{◌≡◌, ◌≢◌, ◌≤◌, [], Ok, Err, IfErr, IfOk, OnErr, drop, length, replicate, take};
ghost use Rattle.deferral.specs.Laid.{Laid};
ghost use Rattle.deferral.specs.Laying.{lay};
ghost use Rattle.readings.specs.Lists.{rows_of};
ghost use Rattle.readings.specs.Refusals.{content};
ghost use Rattle.strip.specs.LaidIn.{LaidIn};

use crate::kept::Kept;
use deferral::lay;
use readings::{Readings, Refusal};

// What was laid last: the list, the number of slots, which lie first in the memory, and the limit.
#[derive(Drop)]
pub(crate) struct Layout {
    pub(crate) list: Kept,
    pub(crate) count: u16,
    pub(crate) limit: u16,
}

impl Layout {
    // Lays a list on the first `slots` bytes of a memory. Where that is refused, with 7 or 8, those
    // bytes are 0.
    fn lay(memory: &mut [u8], list: &Readings, slots: usize) -> Result<Layout, Refusal>
        requires some { 1 ≤ slots }
        requires few { slots ≤ 32767 }
        requires room { slots ≤ length memory.old }
        ensures laid { IfOk result (λ l. LaidIn l.list memory.new l.count l.limit) }
        ensures list { IfOk result (λ l. l.list ≡ rows_of list.now) }
        ensures count { IfOk result (λ l. l.count ≡ slots) }
        ensures law { IfOk result (λ l.
            Laid (rows_of list.now) slots (take slots memory.new) l.limit) }
        ensures err { IfErr result (λ e. lay (rows_of list.now) slots ≡ Err (content e)) }
        ensures fits { IfErr result (λ e. content e ≢ (6, [])) }
        ensures cleared { OnErr result (take slots memory.new ≡ replicate slots 0) }
        ensures rest { drop slots memory.new ≡ drop slots memory.old }
    {
        let limit = lay(&mut memory[..slots], list)?;
        Ok(Layout {
            list: Kept::new(list),
            // at most 32,767
            count: slots as u16,
            limit,
        })
    }
}

/// A strip in a memory that was lent for it: it can be laid, again and again, and then closed.
#[derive(Drop)]
pub struct LayingStrip<'a> {
    pub(crate) memory: &'a mut [u8],
    pub(crate) laid: Option<Layout>,
    ghost law: { ForSome laid (λ l. LaidIn l.list memory.now l.count l.limit) },
}

impl<'a> LayingStrip<'a> {
    ghost use Rattle.std.specs.Prelude.{OnOk};
    ghost use Rattle.strip.specs.LaidIn.{lay_within};
    ghost use Rattle.strip.specs.Layings.{laid_limit, laid_rows, laid_slots, lent_memory, room_of};

    /// A strip in this memory. Nothing is laid.
    pub fn new(memory: &'a mut [u8]) -> LayingStrip<'a>
        ensures memory { lent_memory result ≡ memory.entry }
        ensures slots { laid_slots result ≡ [] }
        ensures limit { laid_limit result ≡ 0 }
    {
        LayingStrip { memory, laid: None }
    }

    /// Lays a list on the first `slots` bytes of the memory, by deferrable scheduling, and answers
    /// the limit up to which all rows are laid, a number of slots. Those bytes are then the slots
    /// of the strip, and the strip belongs to the list; bytes past them stay as they were. Refused
    /// with 6 unless there are 1 to 32,767 slots, all in the memory, and the strip then is as it
    /// was; with 7 or 8 for a row whose first job, or a later one, lacks room, and those bytes are
    /// then 0, and nothing is laid.
    pub fn lay(&mut self, list: &Readings, slots: usize) -> Result<u16, Refusal>
        ensures ok { OnOk result
            (lay_within (room_of self.old) (rows_of list.now) slots
            ≡ Ok (laid_slots self.new, laid_limit self.new)) }
        ensures limit { IfOk result (λ limit. limit ≡ laid_limit self.new) }
        ensures list { OnOk result (laid_rows self.new ≡ rows_of list.now) }
        ensures law { OnOk result
            (Laid (rows_of list.now) slots (laid_slots self.new) (laid_limit self.new)) }

        // refused with 6, or with 7 or 8
        ensures err { IfErr result (λ e.
            lay_within (room_of self.old) (rows_of list.now) slots ≡ Err (content e)) }
        ensures unchanged { IfErr result (λ e. content e ≡ (6, []) → self.new ≡ self.old) }
        ensures cleared { IfErr result (λ e. content e ≢ (6, [])
            → take slots (lent_memory self.new).now ≡ replicate slots 0) }
        ensures no_slots { IfErr result (λ e. content e ≢ (6, []) → laid_slots self.new ≡ []) }
        ensures no_limit { IfErr result (λ e. content e ≢ (6, []) → laid_limit self.new ≡ 0) }

        // in each case
        ensures rest { drop slots (lent_memory self.new).now
            ≡ drop slots (lent_memory self.old).now }
        ensures same_reference { (lent_memory self.new).ghost_name
            ≡ (lent_memory self.old).ghost_name }
    {
        if !(1..=32_767).contains(&slots) || slots > self.memory.len() {
            return Err(Refusal::StripLength);
        }
        self.laid = None;
        let memory = &mut *self.memory;
        let layout = Layout::lay(memory, list, slots)?;
        let limit = layout.limit;
        self.laid = Some(layout);
        Ok(limit)
    }

    // The slots that were laid last, none at first.
    pub(crate) fn slots(&self) -> &[u8]
        ensures { result.now ≡ laid_slots self.now }
    {
        match &self.laid {
            Some(laid) => &self.memory[..usize::from(laid.count)],
            None => &[],
        }
    }
}
