use crate::written::AsExpected;
use script::{LineReply, replies_to};
use std::alloc::{AllocError, Global};
use std::fmt::Write as _;
use std::io::Write;

// List X by More-Less, six ticks and a show, as a script.
const SCRIPT: &[u8] = b"plan\n\
    reading 7 1 5\n\
    reading 8 2 10\n\
    reading 9 2 20\n\
    more\n\
    start 1\n\
    tick 6\n\
    show 9\n";

// The lines that the rules give for it.
const EXPECTED: &str = "ok\nok\nok\nok\nok\n\
    start 31 28\n\
    7 1 1 0\n\
    0 2 0 0\n\
    0 2 2 0\n\
    0 3 0 0\n\
    1 1 1 0\n\
    0 3 3 0\n\
    show 6 20\n";

// These replies as they are written.
fn written_replies(heap: Global, replies: &[LineReply]) -> Result<String, AllocError> {
    let mut written = String::new(heap);
    for reply in replies {
        write!(written, "{reply}")?;
    }
    Ok(written)
}

// Rehearses the script, and writes the replies and whether they are as expected.
pub(crate) fn write_script<W: Write>(out: &mut W, heap: Global) -> anyhow::Result<()> {
    let replies = replies_to(heap, SCRIPT)?;
    let written = written_replies(heap, replies.as_slice())?;
    writeln!(out, "script: X by More-Less, six ticks and a show")?;
    for line in written.as_str().lines() {
        writeln!(out, "  {line}")?;
    }
    let as_expected = AsExpected(written.as_str() == EXPECTED);
    writeln!(out, "  in all: {as_expected}")?;
    Ok(())
}
