//! Runs worked examples from start to end, then runs of a board and a script, and writes what was
//! asked, what came and whether that is as expected.
#![tactic(auto)]

mod boards;
mod candidates;
mod ending;
mod example;
mod exchange;
mod kinds;
mod lists;
mod runs;
mod script_run;
mod strip_example;
mod strips;
mod written;

use boards::write_runs;
use ending::Ending;
use example::Example;
use readings::Refusal;
use script_run::write_script;
use std::fmt;
use std::io::{BufWriter, Write};
use strip_example::StripExample;
use written::{AsExpected, WrittenEnding};

fn main(rt: HostRuntime) -> anyhow::Result<()> {
    run(&rt)
}

fn run(rt: &HostRuntime) -> anyhow::Result<()> {
    let mut out = BufWriter::new(rt.alloc(), rt.stdout())?;
    for example in Example::ALL {
        write_ending(
            &mut out,
            example,
            example.ending(),
            example.expected_ending(),
        )?;
    }
    for example in StripExample::ALL {
        write_ending(
            &mut out,
            example,
            example.ending(),
            example.expected_ending(),
        )?;
    }
    write_runs(&mut out, rt.alloc())?;
    write_script(&mut out, rt.alloc())?;
    out.flush()?;
    Ok(())
}

// Writes an example, its ending and whether that is as expected.
fn write_ending<T: fmt::Display + Drop, W: Write>(
    out: &mut W,
    example: T,
    ending: Result<Ending, Refusal>,
    expected: Result<Ending, Refusal>,
) -> anyhow::Result<()> {
    let as_expected = AsExpected(ending == expected);
    writeln!(out, "{example}: {}: {as_expected}", WrittenEnding(ending))?;
    Ok(())
}
