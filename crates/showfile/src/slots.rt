ghost use Rattle.std.specs.List.{fold, list_all};
ghost use Rattle.std.specs.Prelude.{◌≡◌, ◌≤◌, ◌*◌, drop, length, max, nat_le, take};
ghost use Rattle.showfile.specs.Tests.{are_zero, slots_fit};
ghost use Rattle.showfile.specs.Told.{block_slots, head, slot_bytes, slots_told};
ghost use Rattle.showfile.specs.Spelling.{slot_block_count};

use crate::block::{Block, Parts};

// How many slots a block has.
pub(crate) const SLOTS: usize = 504;

// How many blocks so many slots take.
pub(crate) fn slot_block_count(slots: usize) -> usize
    requires { slots ≤ 65535 }
    ensures { result ≡ slot_block_count slots }
{
    (slots + SLOTS - 1) / SLOTS
}

// Whether all these bytes are 0.
pub(crate) fn are_zero(bytes: &[u8]) -> bool
    ensures { result ≡ are_zero bytes.now }
{
    bytes.iter().all(|byte| *byte == 0)
}

// The bytes for slots of a block, split: the first `count` of them, or all, and the rest.
fn split_slots(block: &Block, count: usize) -> (&[u8], &[u8])
    ensures used { result.0.now ≡ take count (block_slots block.now) }
    ensures rest { result.1.now ≡ drop count (block_slots block.now) }
{
    let Parts { body, .. } = Parts::of(block);
    let (slots, _) = body.split_at(SLOTS);
    slots.split_at(count.min(SLOTS))
}

// Whether the bytes for slots of some blocks are 0 past the first `count`.
pub(crate) fn slots_rest_is_zero(blocks: &[Block], count: usize) -> bool
    ensures { result ≡ are_zero (drop count (slot_bytes blocks.now)) }
{
    let mut left = count;
    for block in blocks {
        let (slots, rest) = split_slots(block, left);
        if !are_zero(rest) {
            return false;
        }
        left -= slots.len();
    }
    true
}

// Whether each of these slots names one of so many rows, or none.
fn slots_name_rows(slots: &[u8], rows: u8) -> bool
    ensures { result ≡ list_all (λ row. nat_le row rows) slots.now }
{
    last_named(slots) <= rows
}

// The last row that slots name, or 0 for none.
fn last_named(slots: &[u8]) -> u8
    ensures { result ≡ fold max 0 slots.now }
{
    slots.iter().fold(0, |most: u8, row| most.max(*row))
}

// Whether each slot of a file names a row of its list, or none.
pub(crate) fn slots_fit(blocks: &[Block], slots: usize) -> bool
    requires some { 1 ≤ length blocks.now }
    requires slots { slots ≡ slots_told (head blocks.now) }
    ensures { result ≡ slots_fit blocks.now }
{
    let (_, others) = blocks.split_at(1);
    first_slots_name_rows(others, slots, blocks[0][4])
}

// Whether each of the first `count` slots of some blocks names one of so many rows, or none.
fn first_slots_name_rows(blocks: &[Block], count: usize, rows: u8) -> bool
    ensures { result ≡ list_all (λ row. nat_le row rows) (take count (slot_bytes blocks.now)) }
{
    let mut left = count;
    for block in blocks {
        let (slots, _) = split_slots(block, left);
        if !slots_name_rows(slots, rows) {
            return false;
        }
        left -= slots.len();
    }
    true
}

// Fills a memory with the slots of some blocks.
pub(crate) fn fill(memory: &mut [u8], blocks: &[Block])
    requires { length memory.old ≤ 504 * length blocks.now }
    ensures { memory.new ≡ take (length memory.old) (slot_bytes blocks.now) }
{
    let mut filled = 0;
    for block in blocks {
        let (slots, _) = split_slots(block, memory.len() - filled);
        memory[filled..filled + slots.len()].copy_from_slice(slots);
        filled += slots.len();
    }
}
