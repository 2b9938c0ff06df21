use crate::candidates::{Candidates, StripCandidates};
use crate::exchange::Exchange;
use crate::lists::list_x;
use crate::runs;
use crate::strips::laid_strip;
use crate::written::{AsExpected, WrittenReply};
use anyhow::anyhow;
use board::Board;
use board::call::{Call, Grant};
use policy::Policy;
use readings::Refusal;
use std::alloc::{AllocError, Global};
use std::io::Write;

// Writes every run of a board.
pub(crate) fn write_runs<W: Write>(out: &mut W, heap: Global) -> anyhow::Result<()> {
    let candidates = Candidates::new().map_err(|refusal| anyhow!(
        "a candidate of the runs: {refusal}"
    ))?;
    write_run(out, heap, "X by More-Less", &runs::day(&candidates))?;
    write_kinds(out, heap, &candidates)?;
    write_crossings(out, heap, &candidates)?;
    write_run(
        out,
        heap,
        "a stop while a crossing waits, and further days",
        &runs::further_days(&candidates),
    )?;
    write_strip_run(out, heap)
}

// Writes the runs of other kinds of policy.
fn write_kinds<W: Write>(out: &mut W, heap: Global, candidates: &Candidates) -> anyhow::Result<()> {
    write_run(
        out,
        heap,
        "a policy that never samples or runs",
        &runs::inactive(candidates),
    )?;
    write_run(
        out,
        heap,
        "a comparison that always says no",
        &runs::never_alike(candidates),
    )?;
    write_run(
        out,
        heap,
        "a bank of More-Less and a policy that never samples or runs",
        &runs::bank(candidates),
    )
}

// Writes the runs with a crossing.
fn write_crossings<W: Write>(
    out: &mut W,
    heap: Global,
    candidates: &Candidates,
) -> anyhow::Result<()> {
    write_run(
        out,
        heap,
        "X crosses to W at once",
        &runs::crossing_at_once(candidates),
    )?;
    write_run(
        out,
        heap,
        "X crosses to W in three ticks",
        &runs::crossing_later(candidates),
    )?;
    write_run(
        out,
        heap,
        "X crosses to W in twelve ticks, and never to U",
        &runs::crossing_late(candidates),
    )
}

// Writes the run with a strip, which is laid in a memory here.
fn write_strip_run<W: Write>(out: &mut W, heap: Global) -> anyhow::Result<()> {
    let mut memory = [0; 89];
    let strip = list_x()
        .and_then(|x| laid_strip(&x, &mut memory, 89))
        .map_err(|refusal| anyhow!("the strip of the runs: {refusal}"))?;
    let candidates = StripCandidates::new(&strip).map_err(|refusal| anyhow!(
        "a candidate of the runs: {refusal}"
    ))?;
    write_run(
        out,
        heap,
        "X by deferrable scheduling crosses to X by More-Less in seven ticks",
        &runs::crossing_from_strip(&candidates),
    )
}

// Asks a new board the calls of a run, and writes its title and then for each call what was asked,
// the reply and whether that is as expected.
fn write_run<P: Policy, W: Write>(
    out: &mut W,
    heap: Global,
    title: &str,
    exchanges: &[Exchange<P>],
) -> anyhow::Result<()> {
    let replies = replies_to(heap, exchanges)?;
    writeln!(out, "board: {title}")?;
    for (exchange, reply) in exchanges.iter().zip(replies.as_slice()) {
        let as_expected = AsExpected(*reply == exchange.expected);
        writeln!(
            out,
            "  {}: {}: {as_expected}",
            exchange.call,
            WrittenReply(*reply)
        )?;
    }
    Ok(())
}

// What a new board replies to the calls of a run.
fn replies_to<P: Policy>(
    heap: Global,
    exchanges: &[Exchange<P>],
) -> Result<Vec<Result<Grant, Refusal>>, AllocError> {
    let mut calls: Vec<Call<P>> = Vec::new(heap);
    for exchange in exchanges {
        calls.push(exchange.call.call())?;
    }
    // a refusal stands in each place until the board has replied
    let mut replies = vec![in heap; Err(Refusal::Resting); exchanges.len()]?;
    let mut board = Board::new();
    board.ask_all(calls.as_slice(), replies.as_mut_slice());
    Ok(replies)
}
