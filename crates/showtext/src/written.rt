ghost use Rattle.showtext.specs.Told.{row_line, strip_lines};
ghost use Rattle.std.specs.Prelude.{◌≡◌, ◌++◌, OnOk, string_bytes};
ghost use Rattle.strip.specs.Strips.{strip_of};

use readings::Reading;
use std::alloc::AllocError;
use strip::ClosedStrip;

// Writes the lines of a strip behind a text.
pub(crate) fn write_strip(text: &mut String, strip: &ClosedStrip<'_>) -> Result<(), AllocError>
    ensures { OnOk result
        (string_bytes text.new ≡ string_bytes text.old ++ strip_lines (strip_of strip.now)) }
{
    for row in strip.rows() {
        write_row(text, row)?;
    }
    writeln!(text, "slots {}", strip.slots().len())?;
    writeln!(text, "loop {} {}", strip.first(), strip.last())
}

// Writes the line of a row behind a text.
fn write_row(text: &mut String, row: &Reading) -> Result<(), AllocError>
    ensures { OnOk result (string_bytes text.new ≡ string_bytes text.old ++ row_line row.now) }
{
    writeln!(text, "reading {} {} {}", row.id, row.work, row.validity)
}
