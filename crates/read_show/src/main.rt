//! Tells what the show file on standard input holds.
#![tactic(auto)]

use anyhow::Context;
use showtext::told;
use std::io;
use std::io::Read;

// The most bytes that a show file has: 67 blocks of 512.
const LONGEST_FILE: u64 = 67 * 512;

fn main(rt: HostRuntime) -> anyhow::Result<()> {
    run(&rt)
}

fn run(rt: &HostRuntime) -> anyhow::Result<()> {
    let file = read_file(rt).context("standard input")?;
    let text = told(rt.alloc(), file.as_slice())?;
    rt.print(text).context("standard output")
}

// The file, or one byte more than a show file has of a longer one.
fn read_file(rt: &HostRuntime) -> io::Result<Vec<u8>> {
    let mut input = rt.stdin().take(LONGEST_FILE + 1);
    let mut file = Vec::new(rt.alloc());
    input.read_to_end(&mut file)?;
    Ok(file)
}
