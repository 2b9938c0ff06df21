ghost use Rattle.showfile.specs.Reading.{reading};
ghost use Rattle.showfile.specs.Spelling.{spelling};
ghost use Rattle.std.specs.Prelude.{◌≡◌, Ok, IfOk, OnOk};

use crate::written::write_strip;
use showfile::{file_length, store};
use std::alloc::{AllocError, Global};
use strip::ClosedStrip;

// The bytes of a block of a show file.
const BLOCK: usize = 512;

/// The show file of a strip, and what is told of it.
#[derive(Drop)]
pub struct Stored {
    /// The bytes of the file, whole blocks of 512.
    pub file: Vec<u8>,
    /// A line for each thing told, ended by byte 10: `reading` with id, work length and validity
    /// for each row of the list, `slots` with their number, `loop` with its first and its last
    /// slot, and `blocks` with the number of blocks of the file.
    pub told: String,
}

impl Stored {
    ghost use Rattle.showtext.specs.Stored.{Stores};
    ghost use Rattle.strip.specs.Strips.{strip_of};

    // What is stored of a strip, and told.
    pub(crate) fn new(heap: Global, strip: &ClosedStrip<'_>) -> Result<Stored, AllocError>
        ensures stores { IfOk result (Stores (strip_of strip.now)) }
        ensures read_back { OnOk result
            (reading (spelling (strip_of strip.now)) 32767 ≡ Ok (strip_of strip.now)) }
    {
        let mut file = vec![in heap; 0; file_length(strip)]?;
        store(strip, file.as_mut_slice()).unwrap();
        let mut told = String::new(heap);
        write_strip(&mut told, strip)?;
        writeln!(told, "blocks {}", file.len() / BLOCK)?;
        Ok(Stored { file, told })
    }
}
