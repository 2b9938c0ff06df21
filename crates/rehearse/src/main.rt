//! Rehearses a script from standard input: reads it, and writes the replies to its lines.
#![tactic(auto)]

mod written;

use crate::written::Written;
use script::{LONGEST_SCRIPT, Stopped, rehearse};
use std::io;
use std::io::{BufWriter, Read, Write};

fn main(rt: HostRuntime) -> anyhow::Result<()> {
    run(&rt)
}

fn run(rt: &HostRuntime) -> anyhow::Result<()> {
    let text = read_script(rt)?;
    let mut written = Written {
        out: BufWriter::new(rt.alloc(), rt.stdout())?,
    };
    rehearse(rt.alloc(), text.as_slice(), &mut written).map_err(error_of)?;
    written.out.flush()?;
    Ok(())
}

// The script, or one byte more than a script may have of a longer one.
fn read_script(rt: &HostRuntime) -> io::Result<Vec<u8>> {
    let mut input = rt.stdin().take(LONGEST_SCRIPT as u64 + 1);
    let mut text = Vec::new(rt.alloc());
    input.read_to_end(&mut text)?;
    Ok(text)
}

// Why a script is not answered to its end, as the program tells it.
fn error_of(stopped: Stopped<io::Error>) -> anyhow::Error {
    match stopped {
        Stopped::Memory(e) => e.into(),
        Stopped::Sink(e) => e.into(),
    }
}
