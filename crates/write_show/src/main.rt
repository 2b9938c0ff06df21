//! Writes the show file of the plan script on standard input to the path that the argument gives,
//! and tells what it holds.
#![tactic(auto)]

mod failure;
mod save;

use failure::Failure;
use save::save;
use showtext::{LONGEST_SCRIPT, stored};
use std::io::Read;
use std::process::ExitCode;
use std::rt::Env;
use std::{env, io};

fn main(rt: HostRuntime) -> ExitCode {
    match run(&rt) {
        Ok(()) => ExitCode::SUCCESS,
        Err(failure) => {
            // where this fails too, the status alone tells
            let _ = eprintln!(rt; "write_show: {failure}");
            ExitCode::FAILURE
        }
    }
}

fn run(rt: &HostRuntime) -> Result<(), Failure> {
    let path = read_path(rt)?;
    let script = read_script(rt).map_err(Failure::Input)?;
    match stored(rt.alloc(), script.as_slice())? {
        Ok(it) => {
            save(rt, path, it.file.as_slice())?;
            rt.print(it.told).map_err(Failure::Output)
        }
        Err(refusal) => rt.println(refusal).map_err(Failure::Output),
    }
}

// The path: the one argument.
fn read_path(rt: &(impl Env + AllocGlobal)) -> Result<String, Failure> {
    let mut words = env::args(rt).map_err(Failure::Arguments)?.skip(1);
    match (words.next(), words.next()) {
        (Some(path), None) => Ok(path),
        _ => Err(Failure::Usage),
    }
}

// The script, or one byte more than a script may have of a longer one.
fn read_script(rt: &HostRuntime) -> io::Result<Vec<u8>> {
    let mut input = rt.stdin().take(LONGEST_SCRIPT as u64 + 1);
    let mut script = Vec::new(rt.alloc());
    input.read_to_end(&mut script)?;
    Ok(script)
}
