ghost use Rattle.std.specs.Prelude.{◌≡◌, ◌≤◌, ℕ, All, EachIndex, IsSome, None, Some, length, map, slice_index_or};
ghost use Rattle.std.specs.Bool.{OnTrue};
ghost use Rattle.books.specs.Rows.{blank_row};
ghost use Rattle.rows.specs.Held.{rows_of as held};
ghost use Rattle.walk.specs.Finishes.{finish_so_far};

use books::Row;
use rows::Rows;

// The first finish of a row by an instant: the one from before it, or the instant if a value is on
// show.
fn finish_so_far(row: &Row, before: Option<u16>, instant: u16) -> Option<u16>
    ensures { result ≡ finish_so_far row.now before instant }
{
    before.or(row.shown.then_some(instant))
}

// Takes the first finish of each row on to this instant, and says yes only if every row then has
// one.
pub(crate) fn note_all(finishes: &mut [Option<u16>], rows: &[Row], instant: u16) -> bool
    requires { length rows.now ≤ length finishes.old }
    ensures each { EachIndex rows.now (λ k. slice_index_or finishes.new k None
        ≡ finish_so_far (slice_index_or rows.now k blank_row)
        (slice_index_or finishes.old k None) instant) }
    ensures all { OnTrue result
        (EachIndex rows.now (λ k. IsSome (slice_index_or finishes.new k None))) }
{
    let mut all = true;
    for (k, row) in rows.iter().enumerate() {
        let finish = finish_so_far(row, finishes[k], instant);
        finishes[k] = finish;
        all = all && finish.is_some();
    }
    all
}

// These instants as rows.
pub(crate) fn instants_of(finishes: &[Option<u16>]) -> Rows<u16>
    requires few { length finishes.now ≤ 16 }
    requires all { All IsSome finishes.now }
    ensures { map Some (held result) ≡ finishes.now }
{
    let mut instants = Rows::new(0);
    for finish in finishes {
        instants.push(finish.unwrap());
    }
    instants
}
