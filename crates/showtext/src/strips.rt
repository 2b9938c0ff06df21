ghost use Rattle.readings.specs.Lists.{rows_of};
ghost use Rattle.readings.specs.Refusals.{content};
ghost use Rattle.showtext.specs.Told.{TellsGrant};
ghost use Rattle.std.specs.Prelude.{◌≡◌, Ok, Err, IfErr, IfOk};
ghost use Rattle.strip.specs.Strips.{laid_strip, strip_of};

use readings::{Readings, Refusal};
use std::alloc::{AllocError, Global};
use strip::{ClosedStrip, LayingStrip};

// The most slots that a strip may have.
const LONGEST_STRIP: usize = 32_767;

// Memory for the slots of a strip: a byte for each, as many as a strip may have.
pub(crate) type StripMemory = [u8; LONGEST_STRIP];

// Memory for a strip.
pub(crate) fn strip_memory(heap: Global) -> Result<Box<StripMemory>, AllocError> {
    Ok(Box::new(heap, [0; LONGEST_STRIP])?)
}

// A strip of so many slots, laid for a list and closed to a loop. Refused as its laying is (6 to
// 8), and with 9 where it does not close.
pub(crate) fn laid_strip<'a>(
    list: &Readings,
    slots: u16,
    memory: &'a mut StripMemory,
) -> Result<ClosedStrip<'a>, Refusal>
    ensures ok { IfOk result (λ strip.
        laid_strip (rows_of list.now) slots ≡ Ok (strip_of strip)) }
    ensures err { IfErr result (λ e. laid_strip (rows_of list.now) slots ≡ Err (content e)) }
    ensures walked { IfOk result (λ strip. TellsGrant (strip_of strip)) }
{
    let mut strip = LayingStrip::new(memory);
    strip.lay(list, slots.into())?;
    match strip.close() {
        Ok(strip) => Ok(strip),
        Err((_, refusal)) => Err(refusal),
    }
}
