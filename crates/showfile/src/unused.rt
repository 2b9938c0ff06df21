ghost use Rattle.std.specs.Prelude.{◌≡◌, ◌≤◌, length, map};
ghost use Rattle.showfile.specs.Tests.{are_zero, rest_fits, unused, unused_in_head};
ghost use Rattle.showfile.specs.Told.{byte_at, head, slots_told};

use crate::block::{Block, Parts};
use crate::slots::{are_zero, slot_block_count, slots_rest_is_zero};

// Whether a file has as many blocks as its slots take, and 0 in the bytes in which nothing is told.
pub(crate) fn rest_fits(blocks: &[Block], slots: usize) -> bool
    requires some { 1 ≤ length blocks.now }
    requires rows { byte_at 4 (head blocks.now) ≤ 16 }
    requires few { slots ≤ 32767 }
    requires slots { slots ≡ slots_told (head blocks.now) }
    ensures { result ≡ rest_fits blocks.now }
{
    let (_, others) = blocks.split_at(1);
    others.len() == slot_block_count(slots) && unused_are_zero(blocks, slots)
}

// Whether all bytes are 0 in which nothing is told.
fn unused_are_zero(blocks: &[Block], slots: usize) -> bool
    requires some { 1 ≤ length blocks.now }
    requires rows { byte_at 4 (head blocks.now) ≤ 16 }
    requires slots { slots ≡ slots_told (head blocks.now) }
    ensures { result ≡ are_zero (unused blocks.now) }
{
    let (_, others) = blocks.split_at(1);
    second_bytes_are_zero(blocks)
        && head_rest_is_zero(&blocks[0])
        && slots_rest_is_zero(others, slots)
}

// Whether byte 1 of each block is 0.
fn second_bytes_are_zero(blocks: &[Block]) -> bool
    ensures { result ≡ are_zero (map (byte_at 1) blocks.now) }
{
    for block in blocks {
        if Parts::of(block).unused != 0 {
            return false;
        }
    }
    true
}

// Whether a first block is 0 past its rows, and past its numbers.
fn head_rest_is_zero(head: &Block) -> bool
    requires { byte_at 4 head.now ≤ 16 }
    ensures { result ≡ are_zero (unused_in_head head.now) }
{
    let rows_end = 5 + 5 * usize::from(head[4]);
    are_zero(&head[rows_end..85]) && are_zero(&head[91..508])
}
