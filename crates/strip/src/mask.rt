ghost use Rattle.std.specs.Prelude.{◌≡◌, ◌≤◌};
ghost use Rattle.strip.specs.Answers.{strip_samples};

// The rows to sample, as a mask, in the slot at a place that names a row: in slot 0 all rows, so
// many, and later the row that is named, if it rests.
pub(crate) fn samples(rows: usize, place: u16, row: u8, rests: bool) -> u16
    requires few { rows ≤ 16 }
    requires named { row ≤ rows }
    ensures { result ≡ strip_samples rows place row rests }
{
    if place == 0 {
        // at most 16 bits
        ((1u32 << rows) - 1) as u16
    } else if row == 0 || !rests {
        0
    } else {
        1 << (row - 1)
    }
}
