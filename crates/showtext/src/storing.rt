ghost use Rattle.lines.specs.Left.{left};
ghost use Rattle.readings.specs.Ranges.{WellMade};
ghost use Rattle.readings.specs.Refusals.{content};
ghost use Rattle.readings.specs.declared.reading.Reading.{Reading};
ghost use Rattle.showfile.specs.Reading.{reading};
ghost use Rattle.showtext.specs.Plans.{IfRefused};
ghost use Rattle.showtext.specs.Scripted.{is_end, scripted};
ghost use Rattle.showtext.specs.Spelled.{plan_script};
ghost use Rattle.showtext.specs.Stored.{StoresAs};
ghost use Rattle.showtext.specs.Told.{TellsGrant};
ghost use Rattle.std.specs.Prelude.{◌≡◌, ◌≤◌, ℕ, List, [], Ok, Err, is_ok, IfErr, IfOk, OnOk};
ghost use Rattle.strip.specs.Strips.{Strip, laid_strip, strip_of};

use crate::made::Stored;
use crate::plan::Plan;
use crate::strips::{StripMemory, strip_memory};
use crate::unmade::Unmade;
use lines::Pieces;
use readings::Refusal;
use std::alloc::{AllocError, Global};
use strip::ClosedStrip;

/// The most bytes that a plan script may have.
pub const LONGEST_SCRIPT: usize = 16_384;

/// The show file that the strip of a plan script makes, and what is told of it. A plan script is
/// one plan that ends by `defer`: the line `plan`, a line `reading` for each of its rows, and
/// `defer` with the number of slots of its strip, each ended by byte 10, and nothing behind. It is
/// refused with the first that is met: with 24 where it has more than 16,384 bytes; line by line
/// with 24 for a line that is malformed, too long or out of place, and at `defer` as the list is
/// refused (1 to 4), then as the strip is laid (6 to 8) or closed (9); with 24 for anything behind
/// `defer`; with 25 where it ends before. Fails only where memory runs out.
pub fn stored(heap: Global, script: &[u8]) -> Result<Result<Stored, Refusal>, AllocError>
    ensures stores { IfOk result (StoresAs (scripted script.now)) }

    // The script of a list, spelled so, makes the strip that is laid for it.
    ensures spelled { IfOk result (λ answer. (rows : List Reading) (n : ℕ)
        → WellMade rows → n ≤ 65535 → script.now ≡ plan_script rows n
        → StoresAs (laid_strip rows n) answer) }

    // The file is read again as the same strip.
    ensures read_back { IfOk result (λ answer. IfOk answer (λ it.
        reading it.file.items 32767 ≡ scripted script.now)) }

    // What is told of it is the strip, and a walk that is granted with its loop.
    ensures walked { IfOk result (λ answer. OnOk answer ((s : Strip)
        → scripted script.now ≡ Ok s → TellsGrant s)) }
{
    match made(heap, script) {
        Ok(it) => Ok(Ok(it)),
        Err(Unmade::Refused(refusal)) => Ok(Err(refusal)),
        Err(Unmade::Memory(e)) => Err(e),
    }
}

// The same, with a refusal as an error.
fn made(heap: Global, script: &[u8]) -> Result<Stored, Unmade>
    ensures stores { IfOk result (λ it. StoresAs (scripted script.now) (Ok it)) }
    ensures read_back { IfOk result (λ it. reading it.file.items 32767 ≡ scripted script.now) }
    ensures walked { OnOk result ((s : Strip) → scripted script.now ≡ Ok s → TellsGrant s) }
    ensures refused { IfErr result (λ e. IfRefused e (λ refusal.
        scripted script.now ≡ Err (content refusal))) }
{
    let mut memory = strip_memory(heap)?;
    let strip = scripted_strip(heap, script, &mut memory)?;
    Ok(Stored::new(heap, &strip)?)
}

// The strip of a plan script.
fn scripted_strip<'a>(
    heap: Global,
    script: &[u8],
    memory: &'a mut StripMemory,
) -> Result<ClosedStrip<'a>, Unmade>
    ensures ok { IfOk result (λ strip. scripted script.now ≡ Ok (strip_of strip)) }
    ensures walked { IfOk result (λ strip. TellsGrant (strip_of strip)) }
    ensures refused { IfErr result (λ e. IfRefused e (λ refusal.
        scripted script.now ≡ Err (content refusal))) }
{
    if script.len() > LONGEST_SCRIPT {
        return Err(Refusal::BadLine.into());
    }
    let mut lines = Pieces::new(script, b'\n');
    let plan = Plan::read(heap, &mut lines)?;
    let strip = plan.strip(memory)?;
    check_end(lines)?;
    Ok(strip)
}

// Refuses, with 24, anything but the end of a script.
fn check_end(mut lines: Pieces) -> Result<(), Refusal>
    ensures ended { is_ok result ≡ is_end (left lines.entry) }
    ensures err { IfErr result (λ e. content e ≡ (24, [])) }
{
    match lines.next() {
        Some([]) if lines.is_done() => Ok(()),
        _ => Err(Refusal::BadLine),
    }
}
