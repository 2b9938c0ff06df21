ghost use Rattle.lines.specs.Left.{left};
ghost use Rattle.readings.specs.Refusals.{content};
ghost use Rattle.showtext.specs.Plans.{IfRefused, end_of};
ghost use Rattle.showtext.specs.Scripted.{next_command, plan_ended, plan_strip, rest_refusal, rows_ended};
ghost use Rattle.showtext.specs.Told.{TellsGrant};
ghost use Rattle.std.specs.Prelude.{◌≡◌, [], Ok, Err, IfErr, IfOk, drop};
ghost use Rattle.strip.specs.Strips.{strip_of};

use crate::strips::{StripMemory, laid_strip};
use crate::unmade::Unmade;
use lines::{Command, Pieces, PlanLine};
use readings::{Proposal, Readings, Refusal};
use std::alloc::{AllocError, Global};
use strip::ClosedStrip;

// A plan that has ended: its readings, first to last, and how many slots its strip is to have.
#[derive(Drop)]
pub(crate) struct Plan {
    given: Vec<Proposal>,
    slots: u16,
}

impl Plan {
    // The plan that comes first in a script, read up to its end.
    pub(crate) fn read(heap: Global, lines: &mut Pieces) -> Result<Plan, Unmade>
        ensures ok { IfOk result (λ plan.
            plan_ended (left lines.old) ≡ Ok (end_of plan (left lines.new))) }
        ensures refused { IfErr result (λ e. IfRefused e (λ refusal.
            plan_ended (left lines.old) ≡ Err (content refusal))) }
    {
        match next_command(lines)? {
            Command::Plan(PlanLine::Begin) => Plan::read_rows(heap, lines),
            _ => Err(Refusal::BadLine.into()),
        }
    }

    // The rows of a plan that has begun, and its end.
    fn read_rows(heap: Global, lines: &mut Pieces) -> Result<Plan, Unmade>
        ensures ok { IfOk result (λ plan.
            rows_ended [] (left lines.old) ≡ Ok (end_of plan (left lines.new))) }
        ensures refused { IfErr result (λ e. IfRefused e (λ refusal.
            rows_ended [] (left lines.old) ≡ Err (content refusal))) }
    {
        let mut given = Vec::new(heap);
        loop {
            match next_command(lines)? {
                Command::Plan(PlanLine::Reading { id, work, validity }) => {
                    let row = Proposal::new(id.into(), work.into(), validity.into());
                    given.push(row).map_err(AllocError::from)?;
                }
                Command::Plan(PlanLine::Defer { slots }) => return Ok(Plan { given, slots }),
                _ => return Err(Refusal::BadLine.into()),
            }
        }
    }

    // Its strip. Refused as its list is (1 to 4), and then as the strip is laid or closed (6 to 9).
    pub(crate) fn strip<'a>(&self, memory: &'a mut StripMemory) -> Result<ClosedStrip<'a>, Refusal>
        ensures ok { IfOk result (λ strip.
            plan_strip self.now.given.items self.now.slots ≡ Ok (strip_of strip)) }
        ensures err { IfErr result (λ e.
            plan_strip self.now.given.items self.now.slots ≡ Err (content e)) }
        ensures walked { IfOk result (λ strip. TellsGrant (strip_of strip)) }
    {
        let list = Readings::new(self.given.as_slice())?;
        laid_strip(&list, self.slots, memory)
    }
}

// The command of the next line. Refused with 24 where the line is malformed or cut short, and with
// 25 where the script ends.
fn next_command(lines: &mut Pieces) -> Result<Command, Refusal>
    ensures ok { IfOk result (λ command. next_command (left lines.old) ≡ Ok command) }
    ensures err { IfErr result (λ e. next_command (left lines.old) ≡ Err (content e)) }
    ensures rest { left lines.new ≡ drop 1 (left lines.old) }
{
    let line = lines.next().ok_or(Refusal::NoPlan)?;
    if lines.is_done() {
        return Err(rest_refusal(line));
    }
    Command::of(line).ok_or(Refusal::BadLine)
}

// The refusal of what stands behind the last byte 10, where the plan has not ended.
fn rest_refusal(rest: &[u8]) -> Refusal
    ensures { content result ≡ rest_refusal rest.now }
{
    if rest.is_empty() {
        Refusal::NoPlan
    } else {
        Refusal::BadLine
    }
}
