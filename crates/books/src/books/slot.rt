ghost use Rattle.std.specs.Prelude.{◌≡◌, ◌-◌, ◌<◌, ◌≤◌, length};
ghost use Rattle.books.specs.Crossings.{carry, late_fault};
ghost use Rattle.books.specs.Parts.{Young, finishes, grown_fault, passed};
ghost use Rattle.books.specs.Slots.{each_from, lowest_from, run, run_fault, sample_fault, sampled, shown_row, slot};
ghost use Rattle.books.specs.Valid.{AllValid, Spare};
ghost use Rattle.readings.specs.Firsts.{first_of};
ghost use Rattle.policy.specs.Course.{names};
ghost use Rattle.std.specs.Result.{result_err};

use crate::fault::{Fault, Step};
use crate::row::Row;
use readings::Reading;

// Whether row k + 1 is among the rows of a mask.
fn is_named(mask: u16, k: usize) -> bool
    ensures { result ≡ names mask k }
{
    k < 16 && (mask >> k) % 2 == 1
}

// Refuses the sample of row k + 1 that a mask asks for, if it does.
fn check_sample(rows: &[Row], samples: u16, k: usize) -> Result<(), Fault>
    requires { k < 16 }
    ensures { result_err result ≡ sample_fault samples rows.now k }
{
    // a place below 16
    let row = k as u8 + 1;
    if !is_named(samples, k) {
        return Ok(());
    }
    match rows.get(k) {
        Some(it) => it.check(Step::Sample, row),
        None => Err(Fault::JobRule { row }),
    }
}

// Refuses the first sample at fault, lowest row first.
pub(crate) fn check_samples(rows: &[Row], samples: u16) -> Result<(), Fault>
    ensures { result_err result ≡ first_of (sample_fault samples rows.now) 0 16 }
{
    if samples == 0 {
        return Ok(());
    }
    // over the 16 places of a mask, past the last row too
    for k in 0..16usize {
        check_sample(rows, samples, k)?;
    }
    Ok(())
}

// Samples row k + 1 if the mask names it.
fn sample(row: &mut Row, samples: u16, k: usize)
    ensures { row.new ≡ sampled samples k row.old }
{
    if is_named(samples, k) {
        row.open();
    }
}

// Refuses the row to run for what is wrong with it once the samples are taken.
pub(crate) fn check_run(rows: &[Row], samples: u16, row: u8) -> Result<(), Fault>
    ensures { result_err result ≡ run_fault (samples, row) rows.now }
{
    if row == 0 {
        return Ok(());
    }
    let k = usize::from(row) - 1;
    match rows.get(k) {
        Some(it) => {
            let mut run = *it;
            sample(&mut run, samples, k);
            run.check(Step::Run, row)
        }
        None => Err(Fault::JobRule { row }),
    }
}

// Refuses the first row that is not valid once all ages have grown.
pub(crate) fn check_grown(rows: &[Row]) -> Result<(), Fault>
    requires { length rows.now ≤ 16 }
    ensures { result_err result ≡ first_of (grown_fault rows.now) 0 (length rows.now) }
{
    for (k, row) in rows.iter().enumerate() {
        // a place below 16
        row.check_next(k as u8 + 1)?;
    }
    Ok(())
}

// Refuses the first row that is not valid.
pub(crate) fn check_late(rows: &[Row]) -> Result<(), Fault>
    requires { length rows.now ≤ 16 }
    ensures { result_err result ≡ first_of (late_fault rows.now) 0 (length rows.now) }
{
    for (k, row) in rows.iter().enumerate() {
        // a place below 16
        row.check(Step::Judge, k as u8 + 1)?;
    }
    Ok(())
}

// The least number of slots for which a row stays valid, over all rows.
fn margin_of(rows: &[Row]) -> u16
    requires { AllValid rows.now }
    ensures { Spare rows.now result }
{
    rows.iter().map(Row::margin).min().unwrap_or(u16::MAX)
}

// The margin a slot later: one less, or worked out anew where it was used up.
pub(crate) fn next_margin(rows: &[Row], margin: u16) -> u16
    requires valid { AllValid rows.now }
    requires spare { 0 < margin → Spare rows.now (margin - 1) }
    ensures { Spare rows.now result }
{
    if margin > 0 {
        margin - 1
    } else {
        margin_of(rows)
    }
}

// Step 1: opens a job for each row to sample.
fn open_all(rows: &mut [Row], samples: u16)
    ensures { rows.new ≡ each_from (sampled samples) 0 rows.old }
{
    if samples == 0 {
        return;
    }
    for (k, row) in rows.iter_mut().enumerate() {
        sample(row, samples, k);
    }
}

// Step 2: runs row number `row`, if there is one.
fn run_one(rows: &mut [Row], row: u8)
    ensures { rows.new ≡ each_from (run row) 0 rows.old }
{
    let row = usize::from(row);
    if 1 <= row && row <= rows.len() {
        rows[row - 1].run();
    }
}

// Steps 3 and 5: lets a slot pass for all rows, closes the jobs without work left, and answers the
// lowest row whose value goes on show, if one does.
fn pass_all(rows: &mut [Row]) -> Option<u8>
    requires few { length rows.old ≤ 16 }
    requires young { Young rows.old }
    ensures shown { result ≡ lowest_from finishes 0 rows.old }
    ensures after { rows.new ≡ each_from passed 0 rows.old }
{
    let mut shown = None;
    // row by row, since growing and closing a row read and change no other row
    for (k, row) in rows.iter_mut().enumerate() {
        row.grow();
        if row.close() {
            // a place below 16
            shown = shown.or(Some(k as u8 + 1));
        }
    }
    shown
}

// Takes all rows through a slot without judging their ages, and answers the row whose value goes on
// show, if one does.
pub(crate) fn take_all(rows: &mut [Row], samples: u16, run: u8) -> Option<u8>
    requires few { length rows.old ≤ 16 }
    requires young { Young rows.old }
    ensures shown { result ≡ shown_row (samples, run) rows.old }
    ensures after { rows.new ≡ slot (samples, run) rows.old }
{
    open_all(rows, samples);
    run_one(rows, run);
    pass_all(rows)
}

// A reading as it comes over from a row of its id in the old books, if there is one.
pub(crate) fn carry(reading: &Reading, old: Option<Row>) -> Row
    ensures { result ≡ carry reading.now old }
{
    match old {
        None => Row::new(reading),
        Some(row) => Row {
            age: row.age,
            job: None,
            shown: row.shown,
            reading: *reading,
        },
    }
}
