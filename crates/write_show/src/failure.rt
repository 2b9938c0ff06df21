use std::alloc::AllocError;
use std::io;
use thiserror::Error;

/// Why the program fails.
#[derive(Debug, Drop, Error)]
pub enum Failure {
    /// There is not just one argument.
    #[error("usage: write_show PATH, with a plan script on standard input")]
    Usage,
    /// The arguments cannot be read.
    #[error("arguments: {0}")]
    Arguments(io::Error),
    /// Standard input cannot be read.
    #[error("standard input: {0}")]
    Input(io::Error),
    /// Standard output cannot be written.
    #[error("standard output: {0}")]
    Output(io::Error),
    /// A file cannot be made, written or moved, and the program leaves nothing of it.
    #[error("{file}: {reason}")]
    File {
        /// The path of the file.
        file: String,
        /// What the system says.
        reason: io::Error,
    },
    /// A file cannot be written or moved, and what there is of it cannot be removed.
    #[error("{file} cannot be written and moved: {reason}; it is left: {removal}")]
    Left {
        /// The path of the file that is left.
        file: String,
        /// What the system says of the write or the move.
        reason: io::Error,
        /// What it says of the removal.
        removal: io::Error,
    },
    /// Memory runs out.
    #[error(transparent)]
    Memory(#[from(alloc)] AllocError),
}
