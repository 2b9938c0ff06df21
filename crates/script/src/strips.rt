ghost use Rattle.readings.specs.Lists.{rows_of};
ghost use Rattle.readings.specs.Refusals.{content};
ghost use Rattle.script.specs.Strips.{LoopWalked, empty_strip};
ghost use Rattle.std.specs.Prelude.{◌≡◌, Ok, Err, IfErr, IfOk};
ghost use Rattle.strip.specs.Strips.{laid_strip, strip_of};

use readings::{Readings, Refusal};
use strip::{ClosedStrip, LayingStrip};

// The most slots that a strip may have.
pub(crate) const LONGEST_STRIP: usize = 32_767;

/// Memory for the slots of a strip: a byte for each, as many as a strip may have.
pub type StripMemory = [u8; LONGEST_STRIP];

// A strip of two empty slots, the second its loop, for a plan that plays none.
pub(crate) fn empty_strip<'a>(list: &Readings, memory: &'a mut StripMemory) -> ClosedStrip<'a>
    ensures { strip_of result ≡ empty_strip (rows_of list.now) }
{
    memory[0] = 0;
    memory[1] = 0;
    match ClosedStrip::from_outside(list, memory, 2, 1, 1) {
        Ok(strip) => strip,
        Err(_) => unreachable!(),
    }
}

// A strip of so many slots, laid for a list and closed to a loop. Refused as its laying is (6 to
// 8), and with 9 where it does not close.
pub(crate) fn laid_strip<'a>(
    list: &Readings,
    slots: u16,
    memory: &'a mut StripMemory,
) -> Result<ClosedStrip<'a>, Refusal>
    ensures ok { IfOk result (λ strip.
        laid_strip (rows_of list.now) slots ≡ Ok (strip_of strip)) }
    ensures err { IfErr result (λ e. laid_strip (rows_of list.now) slots ≡ Err (content e)) }
    ensures walked { IfOk result (λ strip. LoopWalked (strip_of strip)) }
{
    let mut strip = LayingStrip::new(memory);
    strip.lay(list, slots.into())?;
    match strip.close() {
        Ok(strip) => Ok(strip),
        Err((_, refusal)) => Err(refusal),
    }
}
