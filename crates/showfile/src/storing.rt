ghost use Rattle.std.specs.Int.{to_be_bytes, w16};
ghost use Rattle.std.specs.List.{concat, flat_map};
ghost use Rattle.std.specs.Prelude.{◌≡◌, ◌≤◌, ◌↔◌, ◌*◌, ◌++◌, ℕ, [], length, replicate, Ok, IfErr, IsOk, OnErr, OnOk};
ghost use Rattle.readings.specs.Refusals.{content};
ghost use Rattle.strip.specs.Held.{loop_first, loop_last, slots_of};
ghost use Rattle.strip.specs.Strips.{IsClosed, strip_of};
ghost use Rattle.showfile.specs.Blocks.{padded};
ghost use Rattle.showfile.specs.Reading.{reading};
ghost use Rattle.showfile.specs.Spelling.{head_body, row as spelled, slot_block_count, slot_blocks, spelling};

use crate::block::write_block;
use crate::slots::{SLOTS, slot_block_count};
use readings::{Reading, Refusal};
use strip::ClosedStrip;

/// How many bytes the show file of a strip has.
pub fn file_length(strip: &ClosedStrip<'_>) -> usize
    ensures { result ≡ length (spelling (strip_of strip.now)) }
{
    // the rows fit the first block
    prove!(strip.rows().len() <= 16);
    512 * (1 + slot_block_count(strip.slots().len()))
}

/// Stores a strip: writes its show file, all bytes of `file`. Refused with 20 unless there are just
/// as many, and nothing is written then.
pub fn store(strip: &ClosedStrip<'_>, file: &mut [u8]) -> Result<(), Refusal>
    ensures granted { IsOk result ↔ (length file.old ≡ length (spelling (strip_of strip.now))) }
    ensures ok { OnOk result (file.new ≡ spelling (strip_of strip.now)) }
    // It is read again as the same strip.
    ensures read_back { OnOk result ((room : ℕ) → length (slots_of strip.now) ≤ room
        → reading file.new room ≡ Ok (strip_of strip.now)) }
    ensures err { IfErr result (λ e. content e ≡ (20, [])) }
    ensures unchanged { OnErr result (file.new ≡ file.old) }
{
    if file.len() != file_length(strip) {
        return Err(Refusal::FileLength);
    }
    let (first, others) = file.split_at_mut(512);
    write_block(first, b'T', 0, &head_body(strip));
    write_slots(others, strip.slots());
    Ok(())
}

// The body of the first block.
fn head_body(strip: &ClosedStrip<'_>) -> [u8; 87]
    ensures body { result ≡ head_body (strip_of strip.now) }
    ensures law { IsClosed (strip_of strip.now) }
{
    let rows = strip.rows();
    let mut body = [0; 87];
    // at most 16
    body[0] = rows.len() as u8;
    write_rows(&mut body[1..81], rows);
    body[81..].copy_from_slice(&number_bytes(strip));
    body
}

// Writes rows into 80 zeros, five bytes each.
fn write_rows(bytes: &mut [u8], rows: &[Reading])
    requires few { length rows.now ≤ 16 }
    requires zeros { bytes.old ≡ replicate 80 0 }
    ensures { bytes.new ≡ padded 80 (flat_map spelled rows.now) }
{
    for (k, row) in rows.iter().enumerate() {
        bytes[5 * k..5 * k + 5].copy_from_slice(&row_bytes(row));
    }
}

// The bytes of a row.
fn row_bytes(row: &Reading) -> [u8; 5]
    ensures { result ≡ spelled row.now }
{
    let [id_high, id_low] = row.id.to_be_bytes();
    let [validity_high, validity_low] = row.validity.to_be_bytes();
    [id_high, id_low, row.work, validity_high, validity_low]
}

// The bytes of a strip's numbers: how many slots, and the first and the last slot of its loop.
fn number_bytes(strip: &ClosedStrip<'_>) -> [u8; 6]
    ensures { result
        ≡ to_be_bytes w16 (length (slots_of strip.now))
        ++ to_be_bytes w16 (loop_first strip.now) ++ to_be_bytes w16 (loop_last strip.now) }
{
    // at most 32,767
    let slots = strip.slots().len() as u16;
    let [slots_high, slots_low] = slots.to_be_bytes();
    let [first_high, first_low] = strip.first().to_be_bytes();
    let [last_high, last_low] = strip.last().to_be_bytes();
    [
        slots_high, slots_low, first_high, first_low, last_high, last_low,
    ]
}

// Writes the blocks of slots, numbered from 1 on.
fn write_slots(file: &mut [u8], slots: &[u8])
    requires few { length slots.now ≤ 32767 }
    requires whole { length file.old ≡ 512 * slot_block_count (length slots.now) }
    ensures { file.new
        ≡ concat (slot_blocks 1 (slot_block_count (length slots.now)) slots.now) }
{
    for (k, part) in slots.chunks(SLOTS).enumerate() {
        // below 66
        write_block(&mut file[512 * k..512 * k + 512], b'S', k as u16 + 1, part);
    }
}
