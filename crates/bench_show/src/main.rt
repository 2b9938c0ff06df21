//! Stores the largest show file and reads it, each as many times as its last argument says, and
//! writes for each a sum that depends on what was stored or read; `store` or `read` does one alone.
#![tactic(auto)]

use anyhow::anyhow;
use readings::{Proposal, Readings, Refusal};
use showfile::{file_length, read, store};
use std::env;
use strip::ClosedStrip;

// The slots of the strip.
const SLOTS: usize = 32_767;

fn main(rt: HostRuntime) -> anyhow::Result<()> {
    run(&rt)
}

fn run(rt: &HostRuntime) -> anyhow::Result<()> {
    let Request {
        stores,
        reads,
        times,
    } = asked(rt)?;
    let list = list().map_err(|refusal| anyhow!("the list: {refusal}"))?;
    let mut memory = vec![in rt.alloc(); 0u8; SLOTS]?;
    let mut second = vec![in rt.alloc(); 0u8; SLOTS]?;
    name_rows(memory.as_mut_slice());
    let strip = match ClosedStrip::from_outside(&list, memory.as_mut_slice(), SLOTS, 1, SLOTS - 1) {
        Ok(strip) => strip,
        Err((_, refusal)) => return Err(anyhow!("the strip: {refusal}")),
    };
    let mut file = vec![in rt.alloc(); 0u8; file_length(&strip)]?;
    store(&strip, file.as_mut_slice()).map_err(|refusal| anyhow!("the file: {refusal}"))?;
    if stores {
        let sum = sum_stored(&strip, file.as_mut_slice(), times);
        println!(rt; "{times} times stored: {sum}")?;
    }
    if reads {
        let sum = sum_read(file.as_slice(), second.as_mut_slice(), times);
        println!(rt; "{times} times read: {sum}")?;
    }
    Ok(())
}

// What the arguments ask for.
#[derive(Clone, Copy)]
struct Request {
    stores: bool,
    reads: bool,
    times: u32,
}

fn asked(rt: &HostRuntime) -> anyhow::Result<Request> {
    let mut asked = Request {
        stores: true,
        reads: true,
        times: 1,
    };
    for word in env::args(rt)?.skip(1) {
        if word.as_str() == "store" {
            asked.reads = false;
        } else if word.as_str() == "read" {
            asked.stores = false;
        } else {
            asked.times = word.parse::<u32>()?;
        }
    }
    Ok(asked)
}

// Stores a strip so many times, and sums up what the turns answer.
fn sum_stored(strip: &ClosedStrip<'_>, file: &mut [u8], times: u32) -> u32 {
    (0..times).fold(0u32, |sum, turn| {
        sum.wrapping_add(stored(strip, file, turn))
    })
}

// Reads a file so many times, and sums up what the turns answer.
fn sum_read(file: &[u8], memory: &mut [u8], times: u32) -> u32 {
    (0..times).fold(0u32, |sum, turn| {
        sum.wrapping_add(read_back(file, memory, turn))
    })
}

// Stores a strip, and answers a number of its file, another each turn, or 0 if it is refused.
fn stored(strip: &ClosedStrip<'_>, file: &mut [u8], turn: u32) -> u32 {
    if store(strip, file).is_err() {
        return 0;
    }
    number_for(turn, file)
}

// Reads a file, and answers a number of its strip, another each turn, or 0 if it is refused.
fn read_back(file: &[u8], memory: &mut [u8], turn: u32) -> u32 {
    match read(file, memory) {
        Ok(strip) => number_for(turn, strip.slots()),
        Err(_) => 0,
    }
}

// One more than a byte, another each turn.
fn number_for(turn: u32, bytes: &[u8]) -> u32 {
    bytes
        .get(turn as usize % SLOTS)
        .map_or(0, |byte| 1 + u32::from(*byte))
}

// Names a row or none in each slot, 16 rows one after the other.
fn name_rows(slots: &mut [u8]) {
    for (k, slot) in slots.iter_mut().enumerate() {
        // below 17
        *slot = (k % 17) as u8;
    }
}

// Sixteen readings with validities from 200 slots on.
fn list() -> Result<Readings, Refusal> {
    let rows: [Proposal; 16] = std::array::from_fn(|k| {
        // a place below 16
        let row = k as u32 + 1;
        Proposal::new(row, row, 200 + 6 * row)
    });
    Readings::new(&rows)
}
