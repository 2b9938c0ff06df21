ghost use Rattle.std.specs.Prelude.{◌≡◌, ◌+◌, ◌≤◌, [], ◌∷◌, true, false, None, Some, Ok, Err, IfErr, IfOk, IfNone, IfSome, length};
ghost use Rattle.deferral.specs.Free.{free_in};
ghost use Rattle.deferral.specs.Laying.{first_deadline, lacks_room, lay_row, next_span, with_jobs};
ghost use Rattle.readings.specs.Refusals.{content};

use crate::span::Span;
use readings::{Reading, Refusal};

// Lays the jobs of a row up to the limit, and answers the limit that it leaves: the deadline of its
// last job. Where a job lacks room, the jobs before it and a part of it are laid.
pub(crate) fn lay_row(slots: &mut [u8], row: u8, it: &Reading, limit: u16) -> Result<u16, Refusal>
    requires strip { length slots.old ≤ 32767 }
    requires within { limit ≤ length slots.old }
    requires work { 1 ≤ it.now.work }
    requires validity { it.now.validity ≤ 4095 }
    ensures ok { IfOk result (λ left. lay_row row it.now limit slots.old ≡ Ok (slots.new, left)) }
    ensures err { IfErr result (λ e. lay_row row it.now limit slots.old ≡ Err (content e)) }
    ensures bound { IfOk result (λ left. left ≤ limit) }
{
    let mut job = first_job(slots, row, it.work, limit).ok_or(Refusal::FirstJob { row })?;
    while job.sample + it.validity <= limit {
        job = next_job(slots, row, it, job).ok_or(Refusal::NextJob { row })?;
    }
    Ok(job.deadline)
}

// Lays a first job in the first free slots, if so many lie below the limit.
fn first_job(slots: &mut [u8], row: u8, work: u8, limit: u16) -> Option<Span>
    requires within { limit ≤ length slots.old }
    requires work { 1 ≤ work }
    ensures none { IfNone result (first_deadline (free_in slots.old) work limit ≡ None) }
    ensures some { IfSome result (λ s.
        first_deadline (free_in slots.old) work limit ≡ Some s.deadline) }
    ensures sample { IfSome result (λ s. s.sample ≡ 0) }
    ensures taken { IfSome result (λ s. slots.new ≡ with_jobs row (s ∷ []) slots.old) }
{
    let mut left = work;
    for slot in 0..limit {
        let holder = &mut slots[usize::from(slot)];
        if *holder == 0 {
            *holder = row;
            left -= 1;
            if left == 0 {
                return Some(Span {
                    sample: 0,
                    deadline: slot + 1,
                });
            }
        }
    }
    None
}

// Lays the job after one in the last free slots before its deadline, if so many lie at or past the
// deadline of the job before.
fn next_job(slots: &mut [u8], row: u8, it: &Reading, before: Span) -> Option<Span>
    requires strip { length slots.old ≤ 32767 }
    requires within { before.sample + it.now.validity ≤ length slots.old }
    requires work { 1 ≤ it.now.work }
    ensures none { IfNone result
        (lacks_room (free_in slots.old) it.now.work it.now.validity before ≡ true) }
    ensures some { IfSome result (λ s.
        lacks_room (free_in slots.old) it.now.work it.now.validity before ≡ false) }
    ensures span { IfSome result (λ s.
        s ≡ next_span (free_in slots.old) it.now.work it.now.validity before) }
    ensures taken { IfSome result (λ s. slots.new ≡ with_jobs row (s ∷ []) slots.old) }
{
    let deadline = before.sample + it.validity;
    let mut left = it.work;
    for slot in (before.deadline..deadline).rev() {
        let holder = &mut slots[usize::from(slot)];
        if *holder == 0 {
            *holder = row;
            left -= 1;
            if left == 0 {
                return Some(Span {
                    sample: slot,
                    deadline,
                });
            }
        }
    }
    None
}
