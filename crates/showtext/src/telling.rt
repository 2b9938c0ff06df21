ghost use Rattle.showfile.specs.Reading.{reading};
ghost use Rattle.showtext.specs.Told.{Tells, outcome_line};
ghost use Rattle.std.specs.Prelude.{◌≡◌, ◌++◌, ℕ, List, [], IfOk, OnOk, Ok, string_bytes};
ghost use Rattle.strip.specs.Strips.{strip_of};
ghost use Rattle.walk.specs.Plans.{outcome};

use crate::strips::{StripMemory, strip_memory};
use crate::written::write_strip;
use readings::Refusal;
use showfile::read;
use std::alloc::{AllocError, Global};
use strip::{ClosedStrip, Player};
use walk::Accepted;

/// What a show file holds, a line for each thing, ended by byte 10: `reading` with id, work length
/// and validity for each row, `slots` with their number, `loop` with its first and its last slot,
/// and how a walk ends that plays the strip with new books: `walk` with the mark, an instant, and
/// the length of the loop in slots, or `no` with the number of its refusal (11 to 13). Where the
/// file cannot be read, into memory for 32,767 slots, that refusal alone (1 to 4, 10, 20 to 23).
/// Fails only where memory runs out.
pub fn told(heap: Global, file: &[u8]) -> Result<String, AllocError>
    ensures tells { IfOk result (λ text. Tells (reading file.now 32767) (string_bytes text)) }

    // No other text does.
    ensures only { IfOk result (λ text. (other : List ℕ)
        → Tells (reading file.now 32767) other → other ≡ string_bytes text) }
{
    let mut memory = strip_memory(heap)?;
    let mut text = String::new(heap);
    write_file(&mut text, file, &mut memory)?;
    Ok(text)
}

// Writes what a show file holds, which is read into a memory, into an empty text.
fn write_file(text: &mut String, file: &[u8], memory: &mut StripMemory) -> Result<(), AllocError>
    requires { string_bytes text.old ≡ [] }
    ensures tells { OnOk result (Tells (reading file.now 32767) (string_bytes text.new)) }
    ensures only { OnOk result ((other : List ℕ)
        → Tells (reading file.now 32767) other → other ≡ string_bytes text.new) }
{
    match read(file, memory) {
        Ok(strip) => write_walked(text, &strip),
        Err((_, refusal)) => writeln!(text, "{refusal}"),
    }
}

// Writes what a strip is, and how a walk of it ends, into an empty text.
fn write_walked(text: &mut String, strip: &ClosedStrip<'_>) -> Result<(), AllocError>
    requires { string_bytes text.old ≡ [] }
    ensures tells { OnOk result (Tells (Ok (strip_of strip.now)) (string_bytes text.new)) }
    ensures only { OnOk result ((other : List ℕ)
        → Tells (Ok (strip_of strip.now)) other → other ≡ string_bytes text.new) }
{
    write_strip(text, strip)?;
    write_outcome(text, &Accepted::walk(&strip.list(), Player::new(strip)))
}

// Writes what a walk answers behind a text.
fn write_outcome(
    text: &mut String,
    answer: &Result<Accepted<Player<'_>>, Refusal>,
) -> Result<(), AllocError>
    ensures { OnOk result
        (string_bytes text.new ≡ string_bytes text.old ++ outcome_line (outcome answer.now)) }
{
    match answer {
        Ok(plan) => writeln!(text, "walk {} {}", plan.mark(), plan.length()),
        Err(refusal) => writeln!(text, "{refusal}"),
    }
}
