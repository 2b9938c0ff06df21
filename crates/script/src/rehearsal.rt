ghost use Rattle.script.specs.Laws.{AtMostTwoPlans, NoPlansAfterCalls, TickReplies, answered_lines};
ghost use Rattle.lines.specs.Left.{left, none_left};
ghost use Rattle.lines.specs.Pieces.{pieces};
ghost use Rattle.script.specs.Held.{drafts_state};
ghost use Rattle.script.specs.Replies.{Said};
ghost use Rattle.script.specs.Shortage.{StopsAtLine};
ghost use Rattle.script.specs.Sinks.{AnswersLines, AnswersText, BeginsLines, BeginsText};
ghost use Rattle.script.specs.States.{first_state, once_called};
ghost use Rattle.script.specs.Stops.{IfMemory};
ghost use Rattle.script.specs.Texts.{LinesAnswered, Rehearses};
ghost use Rattle.std.specs.Prelude.{◌≡◌, ◌≢◌, ◌≤◌, false, List, [], ◌∷◌, length, IfErr, OnErr, OnOk};

use crate::calls::Calls;
use crate::drafts::Drafts;
use crate::reply::LineReply;
use crate::sink::{Sink, Stopped, give};
use crate::strips::{LONGEST_STRIP, StripMemory};
use lines::Pieces;
use readings::Refusal;
use std::alloc::Global;

/// The most bytes that a script may have.
pub const LONGEST_SCRIPT: usize = 16_384;

/// Answers a whole script: hands the sink the replies to its lines, one after the other. Fails only
/// where the sink fails or memory runs out, and then the sink has got a beginning of the replies.
/// Memory runs out only at a line that adds a reading, for which there is no room (see
/// `Drafts::line`), and never in a text that is too long: the lines before it are answered then, and
/// no other.
#[tactic(auto, using(crate::proofs::LawsHold::two_plans, crate::proofs::TextRuns::refused_alone))]
pub fn rehearse<S: Sink>(heap: Global, text: &[u8], sink: &mut S) -> Result<(), Stopped<S::Error>>
    ensures ok { OnOk result
        (AnswersText S.with_one (S.got sink.old) (S.got sink.new) text.now) }
    ensures err { OnErr result
        (BeginsText S.with_one (S.got sink.old) (S.got sink.new) text.now) }
    ensures no_room { IfErr result (λ e. IfMemory e
        (StopsAtLine S.with_one (S.got sink.old) (S.got sink.new) text.now)) }
    ensures short { IfErr result (λ e. IfMemory e (length text.now ≤ 16384)) }

    // What holds of the lines of the text, however they are answered.
    ensures two_plans { (answers : List (List Said)) → Rehearses text.now answers
        → AtMostTwoPlans (answered_lines text.now answers) }
    ensures calls_last { (answers : List (List Said)) → Rehearses text.now answers
        → NoPlansAfterCalls (answered_lines text.now answers) }
    ensures ticks { (answers : List (List Said)) → Rehearses text.now answers
        → TickReplies (answered_lines text.now answers) }
{
    if text.len() > LONGEST_SCRIPT {
        give(sink, LineReply::Refused(Refusal::BadLine))
    } else {
        answer_lines(heap, text, sink)
    }
}

// Answers the lines of a text.
fn answer_lines<S: Sink>(heap: Global, text: &[u8], sink: &mut S) -> Result<(), Stopped<S::Error>>
    ensures ok { OnOk result (AnswersLines S.with_one (S.got sink.old) (S.got sink.new)
        (LinesAnswered first_state (pieces 10 text.now))) }
    ensures err { OnErr result (BeginsLines S.with_one (S.got sink.old) (S.got sink.new)
        (LinesAnswered first_state (pieces 10 text.now))) }
    ensures no_room { IfErr result (λ e. IfMemory e
        (StopsAtLine S.with_one (S.got sink.old) (S.got sink.new) text.now)) }
{
    let mut first: StripMemory = [0; LONGEST_STRIP];
    let mut second: StripMemory = [0; LONGEST_STRIP];
    answer_plans(Drafts::new(heap, &mut first, &mut second), text, sink)
}

// Answers the lines of a text: writes plans, up to the first call that is taken.
fn answer_plans<S: Sink>(
    mut drafts: Drafts<'_>,
    text: &[u8],
    sink: &mut S,
) -> Result<(), Stopped<S::Error>>
    requires { drafts_state drafts ≡ first_state }
    ensures ok { OnOk result (AnswersLines S.with_one (S.got sink.old) (S.got sink.new)
        (LinesAnswered first_state (pieces 10 text.now))) }
    ensures err { OnErr result (BeginsLines S.with_one (S.got sink.old) (S.got sink.new)
        (LinesAnswered first_state (pieces 10 text.now))) }
    ensures no_room { IfErr result (λ e. IfMemory e
        (StopsAtLine S.with_one (S.got sink.old) (S.got sink.new) text.now)) }
{
    let mut lines = Pieces::new(text, b'\n');
    while let Some(line) = lines.next() {
        if is_rest(&lines) {
            take_rest(line, sink).map_err(Stopped::Sink)?;
        } else if drafts.line(line, sink)? {
            // the line is a call, and ends the writing of plans
            return answer_calls(&drafts, line, lines, sink).map_err(Stopped::Sink);
        }
    }
    Ok(())
}

// Answers the lines of a text from the first call that is taken on.
fn answer_calls<S: Sink>(
    drafts: &Drafts<'_>,
    first: &[u8],
    mut lines: Pieces,
    sink: &mut S,
) -> Result<(), S::Error>
    requires { none_left (left lines) ≡ false }
    ensures ok { OnOk result (AnswersLines S.with_one (S.got sink.old) (S.got sink.new)
        (LinesAnswered (once_called (drafts_state drafts.now)) (first.now ∷ left lines.entry))) }
    ensures err { OnErr result (BeginsLines S.with_one (S.got sink.old) (S.got sink.new)
        (LinesAnswered (once_called (drafts_state drafts.now)) (first.now ∷ left lines.entry))) }
{
    let mut calls = Calls::new(drafts);
    calls.line(first, sink)?;
    while let Some(line) = lines.next() {
        if is_rest(&lines) {
            take_rest(line, sink)?;
        } else {
            calls.line(line, sink)?;
        }
    }
    Ok(())
}

// Whether the piece taken last is what stands behind the last byte 10: none is left then.
fn is_rest(lines: &Pieces) -> bool
    ensures { result ≡ none_left (left lines.now) }
{
    lines.is_done()
}

// Answers what stands behind the last byte 10: a line cut short, unless nothing stands there.
fn take_rest<S: Sink>(rest: &[u8], sink: &mut S) -> Result<(), S::Error>
    ensures nothing { rest.now ≡ [] → S.got sink.new ≡ S.got sink.old }
    ensures cut_short { rest.now ≢ [] → OnOk result (S.got sink.new
        ≡ S.with_one (S.got sink.old) (LineReply.Refused Refusal.BadLine)) }
    ensures err { OnErr result (S.got sink.new ≡ S.got sink.old) }
{
    if rest.is_empty() {
        return Ok(());
    }
    sink.take(LineReply::Refused(Refusal::BadLine))
}
