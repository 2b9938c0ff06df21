//! Walks a policy of 16 rows that neither repeats nor faults, as many times as its argument says,
//! and writes how many of the walks ended for want of a repeat.
#![tactic(auto)]

use periodic::Periodic;
use planner::Timings;
use readings::{Proposal, Readings, Refusal};
use std::env;
use walk::Accepted;

fn main(rt: HostRuntime) -> anyhow::Result<()> {
    run(&rt)
}

fn run(rt: &HostRuntime) -> anyhow::Result<()> {
    // every argument has to be a number, and the last one counts
    let mut times: u32 = 1;
    for word in env::args(rt)?.skip(1) {
        times = word.parse::<u32>()?;
    }
    let unrepeated = (0..times).filter(|number| finds_no_repeat(*number)).count();
    println!(rt; "{unrepeated} of {times} walks ended for want of a repeat")?;
    Ok(())
}

// Whether the walk of the list with this number, counted from 0, ends for want of a repeat.
fn finds_no_repeat(number: u32) -> bool {
    let Ok(list) = list_of(number) else {
        return false;
    };
    let policy = Periodic::new(&Timings::half_half(&list));
    matches!(Accepted::walk(&list, policy), Err(Refusal::NoRepeat))
}

// Sixteen readings with validities from 200 slots on, the last of which depends on the number.
fn list_of(number: u32) -> Result<Readings, Refusal> {
    let rows: [Proposal; 16] = std::array::from_fn(|k| {
        let validity = if k == 15 {
            300 + number % 50
        } else {
            // a place below 16
            200 + 6 * k as u32
        };
        Proposal::new(k as u32 + 1, 4, validity)
    });
    Readings::new(&rows)
}
