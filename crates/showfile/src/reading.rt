ghost use Rattle.std.specs.Prelude.{◌≡◌, ◌≤◌, ◌++◌, List, drop, length, Ok, Err, IfErr, IfOk, IsOkAnd, None};
ghost use Rattle.readings.specs.Lists.{rows_of};
ghost use Rattle.readings.specs.Refusals.{content, refusal_of};
ghost use Rattle.strip.specs.Held.{memory_of, slots_of};
ghost use Rattle.strip.specs.Strips.{IsClosed, Strip, strip_of};
ghost use Rattle.showfile.specs.Heads.{IsTold};
ghost use Rattle.showfile.specs.Reading.{block_refusal, blocks_refusal, file_refusal, reading, rest_refusal};
ghost use Rattle.showfile.specs.Tests.{has_head, is_file_length, kind_of};
ghost use Rattle.showfile.specs.Told.{blocks as blocks_in, byte_at, head, slots_told, strip_read};
ghost use Rattle.showfile.specs.Spelling.{spelling};

use crate::block::{Block, Parts, blocks, has_sum};
use crate::head::Head;
use crate::slots::{fill, slots_fit};
use crate::unused::rest_fits;
use readings::Refusal;
use strip::ClosedStrip;

/// Reads a show file: a closed strip, whose slots are written into the first bytes of a memory. Any
/// bytes may be given. Refused with 20 unless they are 2 to 67 whole blocks; block by block with 21
/// for its sum and 22 for its kind or number; with 1 to 4 for the list; with 10 for numbers that no
/// strip has, or for which the memory has no room; with 23 for a count of blocks that is not that
/// of the slots, or an unused byte that is not 0; with 10 for a slot that names no row of the list.
/// The memory is then as it was, and comes back.
pub fn read<'a>(
    file: &[u8],
    memory: &'a mut [u8],
) -> Result<ClosedStrip<'a>, (&'a mut [u8], Refusal)>
    ensures ok { IfOk result (λ c. reading file.now (length memory.old) ≡ Ok (strip_of c)) }
    ensures err { IfErr result (λ e.
        reading file.now (length memory.old) ≡ Err (content e.1)) }

    // What is read is spelled so: stored again it is the same bytes.
    ensures spelled { IfOk result (λ c. file.now ≡ spelling (strip_of c)) }
    // What is spelled so is read, where there is room.
    ensures only { (s : Strip)
        → IsClosed s → length s.slots ≤ length memory.old → file.now ≡ spelling s
        → IsOkAnd result (λ c. strip_of c ≡ s) }

    ensures memory { IfOk result (λ c. (memory_of c).now
        ≡ slots_of c ++ drop (length (slots_of c)) memory.old) }
    ensures same_reference { IfOk result (λ c.
        (memory_of c).ghost_name ≡ memory.entry.ghost_name) }
    ensures unchanged { IfErr result (λ e. e.0 ≡ memory.entry) }
{
    let head = match check(file, memory.len()) {
        Ok(head) => head,
        Err(refusal) => return Err((memory, refusal)),
    };
    Ok(load(&head, file, memory))
}

// The strip that a file tells which nothing refuses: its slots are written into the first bytes of
// a memory.
fn load<'a>(told: &Head, file: &[u8], memory: &'a mut [u8]) -> ClosedStrip<'a>
    requires unrefused { file_refusal file.now (length memory.old) ≡ None }
    requires told { IsTold told.now (head (blocks_in file.now)) }
    ensures strip { strip_of result ≡ strip_read (blocks_in file.now) }
    ensures memory { (memory_of result).now
        ≡ slots_of result ++ drop (length (slots_of result)) memory.old }
    ensures same_reference { (memory_of result).ghost_name ≡ memory.entry.ghost_name }
{
    let (_, others) = blocks(file).split_at(1);
    fill(&mut memory[..told.slots], others);
    match ClosedStrip::from_outside(&told.list, memory, told.slots, told.first, told.last) {
        Ok(strip) => strip,
        Err(_) => unreachable!(),
    }
}

// What the first block of a file tells, or the first refusal of the file, which is to be read into
// so much room.
fn check(file: &[u8], room: usize) -> Result<Head, Refusal>
    ensures refused { refusal_of result ≡ file_refusal file.now room }
    ensures told { IfOk result (λ h. IsTold h (head (blocks_in file.now))) }
{
    if !is_file_length(file.len()) {
        return Err(Refusal::FileLength);
    }
    let blocks = blocks(file);
    check_blocks(blocks)?;
    let head = Head::read(&blocks[0])?;
    if !head.fits(room) {
        return Err(Refusal::Outside);
    }
    check_rest(blocks, head.slots)?;
    Ok(head)
}

// Whether so many bytes are whole blocks, 2 to 67 of them.
fn is_file_length(bytes: usize) -> bool
    ensures { result ≡ is_file_length bytes }
{
    bytes % 512 == 0 && (2..=67).contains(&(bytes / 512))
}

// Refuses the first block whose sum, kind or number is not what comes there.
fn check_blocks(blocks: &[Block]) -> Result<(), Refusal>
    requires { length blocks.now ≤ 67 }
    ensures { refusal_of result ≡ blocks_refusal 0 blocks.now }
{
    for (k, block) in blocks.iter().enumerate() {
        // below 67
        check_block(k as u8, block)?;
    }
    Ok(())
}

// Refuses block k for its sum, and then for its kind or number.
fn check_block(k: u8, block: &Block) -> Result<(), Refusal>
    ensures { refusal_of result ≡ block_refusal k block.now }
{
    if !has_sum(block) {
        return Err(Refusal::BlockSum { block: k });
    }
    if !has_head(k, block) {
        return Err(Refusal::BlockHead { block: k });
    }
    Ok(())
}

// Refuses blocks whose count is not that of the slots, or that have an unused byte which is not 0,
// and then slots that name no row.
fn check_rest(blocks: &[Block], slots: usize) -> Result<(), Refusal>
    requires some { 1 ≤ length blocks.now }
    requires rows { byte_at 4 (head blocks.now) ≤ 16 }
    requires few { slots ≤ 32767 }
    requires slots { slots ≡ slots_told (head blocks.now) }
    ensures { refusal_of result ≡ rest_refusal blocks.now }
{
    if !rest_fits(blocks, slots) {
        return Err(Refusal::FileRest);
    }
    if !slots_fit(blocks, slots) {
        return Err(Refusal::Outside);
    }
    Ok(())
}

// Whether a block has the kind and the number of block k.
fn has_head(k: u8, block: &Block) -> bool
    ensures { result ≡ has_head k block.now }
{
    let parts = Parts::of(block);
    parts.kind == kind_of(k) && parts.number == u16::from(k)
}

// The kind of block k.
fn kind_of(k: u8) -> u8
    ensures { result ≡ kind_of k }
{
    if k == 0 { b'T' } else { b'S' }
}
