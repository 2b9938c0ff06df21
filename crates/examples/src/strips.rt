ghost use Rattle.examples.specs.Strips.{SamplesGive, samples_before};
ghost use Rattle.policy.specs.Policies.{course_of};
ghost use Rattle.readings.specs.Lists.{rows_of};
ghost use Rattle.readings.specs.Refusals.{content};
ghost use Rattle.std.specs.Prelude.{◌≡◌, ◌<◌, ◌≤◌, Err, IfErr, IfNone, IfOk, IfSome, Ok, length};
ghost use Rattle.strip.specs.Strips.{laid_strip, strip_of};

use crate::ending::Ending;
use policy::Policy;
use readings::{Readings, Refusal};
use strip::{ClosedStrip, LayingStrip};

// Lays a list on the first `slots` bytes of a memory, and closes it. Refused as laying and closing
// refuse.
pub(crate) fn laid_strip<'a>(
    list: &Readings,
    memory: &'a mut [u8],
    slots: usize,
) -> Result<ClosedStrip<'a>, Refusal>
    requires { slots ≤ length memory.old }
    ensures ok { IfOk result (λ c. laid_strip (rows_of list.now) slots ≡ Ok (strip_of c)) }
    ensures err { IfErr result (λ e. laid_strip (rows_of list.now) slots ≡ Err (content e)) }
{
    let mut strip = LayingStrip::new(memory);
    strip.lay(list, slots)?;
    match strip.close() {
        Ok(closed) => Ok(closed),
        Err((_, refusal)) => Err(refusal),
    }
}

// The first five slots in which a policy samples row k + 1, if it has so many in its first `slots`.
pub(crate) fn first_samples<P: Policy>(mut policy: P, k: u16, slots: u16) -> Option<Ending>
    requires { k < 16 }
    ensures some { IfSome result (λ e. SamplesGive (course_of P.Policy policy) k (Ok e)) }
    ensures none { IfNone result (samples_before (course_of P.Policy policy) k slots < 5) }
{
    let mut found = [0; 5];
    let mut count = 0;
    for slot in 0..slots {
        let (sampled, _) = policy.step();
        if (sampled >> k) % 2 == 1 {
            found[count] = slot;
            count += 1;
            if count == 5 {
                let [first, second, third, fourth, fifth] = found;
                return Some(Ending::Slots(first, second, third, fourth, fifth));
            }
        }
    }
    None
}
