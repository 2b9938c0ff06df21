//! Lays and closes a strip of 32,767 slots for 16 rows, or walks the policy that plays it, as many
//! times as its last argument says, and writes how many of the strips closed or of the walks were
//! accepted.
#![tactic(auto)]

use anyhow::anyhow;
use readings::{Proposal, Readings, Refusal};
use std::env;
use strip::{ClosedStrip, LayingStrip, Player};
use walk::Accepted;

// The slots of the strip.
const SLOTS: usize = 32_767;

fn main(rt: HostRuntime) -> anyhow::Result<()> {
    run(&rt)
}

fn run(rt: &HostRuntime) -> anyhow::Result<()> {
    let mut walks = false;
    let mut times: u32 = 1;
    for word in env::args(rt)?.skip(1) {
        if word.as_str() == "walk" {
            walks = true;
        } else if word.as_str() != "close" {
            times = word.parse::<u32>()?;
        }
    }
    let list = list().map_err(|refusal| anyhow!("the list: {refusal}"))?;
    let mut memory = vec![in rt.alloc(); 0u8; SLOTS]?;
    if walks {
        let made = count_walks(&list, memory.as_mut_slice(), times);
        println!(rt; "{made} of {times} walks accepted")?;
    } else {
        let made = (0..times)
            .filter(|_| closes(&list, memory.as_mut_slice()))
            .count();
        println!(rt; "{made} of {times} strips closed")?;
    }
    Ok(())
}

// Whether the strip of a list can be laid and closed.
fn closes(list: &Readings, memory: &mut [u8]) -> bool {
    closed(list, memory).is_some()
}

// The closed strip of a list.
fn closed<'a>(list: &Readings, memory: &'a mut [u8]) -> Option<ClosedStrip<'a>> {
    let mut strip = LayingStrip::new(memory);
    strip.lay(list, SLOTS).ok()?;
    match strip.close() {
        Ok(closed) => Some(closed),
        Err(_) => None,
    }
}

// How many of so many walks of the strip of a list are accepted.
fn count_walks(list: &Readings, memory: &mut [u8], times: u32) -> usize {
    let Some(strip) = closed(list, memory) else {
        return 0;
    };
    (0..times)
        .filter(|_| Accepted::walk(list, Player::new(&strip)).is_ok())
        .count()
}

// Sixteen readings whose books repeat late.
fn list() -> Result<Readings, Refusal> {
    const ROWS: [(u32, u32); 16] = [
        (1, 54),
        (3, 54),
        (3, 56),
        (1, 59),
        (1, 60),
        (2, 60),
        (2, 61),
        (3, 61),
        (3, 62),
        (2, 62),
        (1, 65),
        (2, 66),
        (1, 67),
        (3, 67),
        (3, 68),
        (3, 69),
    ];
    let rows: [Proposal; 16] = std::array::from_fn(|k| {
        Proposal::new(k as u32 + 1, ROWS[k].0, ROWS[k].1)
    });
    Readings::new(&rows)
}
