use script::{LineReply, Sink};
use std::io;
use std::io::Write;

// Writes each reply as a line of output.
#[derive(Drop)]
pub(crate) struct Written<W> {
    pub(crate) out: W,
}

impl<W: Write> Sink for Written<W> {
    type Error = io::Error;

    // nothing is said of what an output has got
    ghost Got = { Unit {0} };

    ghost got = { λ _. tt };

    ghost with_one = { λ _ _. tt };

    fn take(&mut self, reply: LineReply) -> io::Result<()> {
        write!(self.out, "{reply}")
    }
}
