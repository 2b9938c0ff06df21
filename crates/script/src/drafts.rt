ghost use Rattle.lines.specs.Words.{command_of};
ghost use Rattle.readings.specs.Refusals.{refusal_of};
ghost use Rattle.script.specs.Drafting.{line_drafted, plan_at, plan_begun, plan_ended, reading_added, with_ready};
ghost use Rattle.script.specs.Held.{LineFindsNoRoom, NoRoom, drafting_of, drafts_state};
ghost use Rattle.script.specs.Lines.{LineAnswered, call_refusal, ends_plans};
ghost use Rattle.script.specs.Plans.{plan_of};
ghost use Rattle.script.specs.Sinks.{GivesAll, GivesOne, GivesSome};
ghost use Rattle.script.specs.States.{first_state};
ghost use Rattle.script.specs.Stops.{IfMemory, IfSink};
ghost use Rattle.std.specs.Prelude.{◌≡◌, ◌+◌, is_none, is_some, nat_lt, IfErr, IfNone, IfOk, IfSome, OnErr};
ghost use Rattle.std.specs.Bool.{OnFalse, OnTrue};
ghost use Rattle.std.specs.Option.{option_map};

use crate::plan::{Plan, Planner};
use crate::reply::LineReply;
use crate::sink::{Sink, Stopped, give};
use crate::strips::StripMemory;
use lines::{CallLine, Command, PlanLine};
use readings::{Proposal, Refusal};
use std::alloc::{AllocError, Global};
use std::mem;

// The memory for the strips of the plans that have not begun.
#[derive(Drop)]
enum Unbegun<'a> {
    // no plan has begun
    Both(&'a mut StripMemory, &'a mut StripMemory),
    // the first has begun
    Second(&'a mut StripMemory),
    // two have begun
    Neither,
}

/// The first phase of a script: its plans are being written, and no call has been taken.
#[derive(Drop)]
pub struct Drafts<'a> {
    unbegun: Unbegun<'a>,
    // the memory for the strip of the plan that is being written, if one is
    memory: Option<&'a mut StripMemory>,
    // its readings so far
    proposed: Vec<Proposal>,
    // the first plan, if it is ready
    first: Option<Plan<'a>>,
    // the second plan, if it is ready
    second: Option<Plan<'a>>,
}

impl<'a> Drafts<'a> {
    /// A script before its first line: no plan has begun. The strips of its plans will lie in
    /// these memories.
    pub fn new(heap: Global, first: &'a mut StripMemory, second: &'a mut StripMemory) -> Drafts<'a>
        ensures { drafts_state result ≡ first_state }
    {
        Drafts {
            unbegun: Unbegun::Both(first, second),
            memory: None,
            proposed: Vec::new(heap),
            first: None,
            second: None,
        }
    }

    /// Answers a line, given without the byte that ends it, by one reply to the sink, or tells that
    /// it ends the writing of plans: it is then a call that is met by neither 24 nor 25, is left to
    /// `Calls`, and has changed nothing. Memory fails only where the line adds a reading and there
    /// is no room for it, and then nothing has changed. Where the sink fails the script may have
    /// done what the line says.
    pub fn line<S: Sink>(&mut self, line: &[u8], sink: &mut S) -> Result<bool, Stopped<S::Error>>
        ensures ends { IfOk result (λ ends. ends
            ≡ ends_plans (command_of line.now) (drafting_of self.old)) }
        ensures ok { IfOk result (λ ends. OnFalse ends
            (GivesAll S.with_one (S.got sink.old) (S.got sink.new)
            (LineAnswered line.now) (drafts_state self.old) (drafts_state self.new))) }
        ensures left { IfOk result (λ ends. OnTrue ends
            ((drafting_of self.new ≡ drafting_of self.old) × (S.got sink.new ≡ S.got sink.old))) }

        ensures no_room { IfErr result (λ e. IfMemory e (LineFindsNoRoom line.now self.old)) }
        ensures unchanged { IfErr result (λ e. IfMemory e
            (drafting_of self.new ≡ drafting_of self.old)) }
        ensures nothing_got { IfErr result (λ e. IfMemory e (S.got sink.new ≡ S.got sink.old)) }

        ensures begun { IfErr result (λ e. IfSink e
            (GivesSome S.with_one (S.got sink.old) (S.got sink.new)
            (LineAnswered line.now) (drafts_state self.old))) }
    {
        let Some(reply) = self.reply(line)? else {
            return Ok(true);
        };
        give(sink, reply)?;
        Ok(false)
    }

    // The reply to a line; none to a call that ends the writing of plans. Memory fails only where
    // the line adds a reading and there is no room for it, and then nothing has changed.
    fn reply(&mut self, line: &[u8]) -> Result<Option<LineReply>, AllocError>
        ensures answered { IfOk result (λ reply. IfSome reply (λ reply. GivesOne
            (LineAnswered line.now) (drafts_state self.old) reply (drafts_state self.new))) }
        ensures ends { IfOk result (λ reply. is_none reply
            ≡ ends_plans (command_of line.now) (drafting_of self.old)) }
        ensures left { IfOk result (λ reply.
            IfNone reply (drafting_of self.new ≡ drafting_of self.old)) }
        ensures unchanged { OnErr result (drafting_of self.new ≡ drafting_of self.old) }
        ensures no_room { OnErr result (LineFindsNoRoom line.now self.old) }
    {
        match Command::of(line) {
            None => Ok(Some(LineReply::Refused(Refusal::BadLine))),
            Some(Command::Plan(line)) => Ok(Some(self.write(line)?.into())),
            Some(Command::Call(call)) => match self.check(call) {
                Ok(()) => Ok(None),
                Err(refusal) => Ok(Some(LineReply::Refused(refusal))),
            },
        }
    }

    // Whether a call is for the board: not while a plan is being written (24), nor with a plan that
    // is not there or not ready (25).
    fn check(&self, call: CallLine) -> Result<(), Refusal>
        ensures { refusal_of result ≡ call_refusal call (drafting_of self.now) }
    {
        if self.is_writing() {
            return Err(Refusal::BadLine);
        }
        match call {
            CallLine::Start { plan } | CallLine::Switch { plan, .. } if self.plan(plan).is_none() =>
                { Err(Refusal::NoPlan) }
            _ => Ok(()),
        }
    }

    // Whether a plan is being written.
    pub(crate) fn is_writing(&self) -> bool
        ensures { result ≡ (drafting_of self.now).writing }
    {
        self.memory.is_some()
    }

    // The plan of a number, if it is there and ready.
    pub(crate) fn plan(&self, number: u16) -> Option<&Plan<'a>>
        ensures { option_map (λ plan. plan_of plan.now) result
            ≡ plan_at number (drafting_of self.now) }
    {
        match number {
            1 => self.first.as_ref(),
            2 => self.second.as_ref(),
            _ => None,
        }
    }

    // Writes what the line of a plan says, or tells why not: 24 where it is out of place, and as
    // the plan is refused that it ends. Memory fails only where the line adds a reading and there
    // is no room for it, and then nothing has changed.
    fn write(&mut self, line: PlanLine) -> Result<Result<(), Refusal>, AllocError>
        ensures ok { IfOk result (λ told. (refusal_of told, drafting_of self.new)
            ≡ line_drafted line (drafting_of self.old)) }
        ensures unchanged { OnErr result (drafting_of self.new ≡ drafting_of self.old) }
        ensures err { OnErr result
            (NoRoom (line_drafted line (drafting_of self.old)) self.old) }
    {
        match line {
            PlanLine::Begin => Ok(self.begin()),
            PlanLine::Reading { id, work, validity } => {
                self.propose(Proposal::new(id.into(), work.into(), validity.into()))
            }
            PlanLine::HalfHalf => Ok(self.finish(Planner::HalfHalf)),
            PlanLine::MoreLess => Ok(self.finish(Planner::MoreLess)),
            PlanLine::Defer { slots } => Ok(self.finish(Planner::Defer { slots })),
        }
    }

    // A plan begins, unless one is being written or two have begun (24).
    fn begin(&mut self) -> Result<(), Refusal>
        ensures { (refusal_of result, drafting_of self.new) ≡ plan_begun (drafting_of self.old) }
    {
        if self.memory.is_some() {
            return Err(Refusal::BadLine);
        }
        let memory = self.next_memory().ok_or(Refusal::BadLine)?;
        self.memory = Some(memory);
        self.proposed.clear();
        Ok(())
    }

    // The memory of the next plan, which begins, unless two have begun.
    fn next_memory(&mut self) -> Option<&'a mut StripMemory>
        ensures some { IfSome result (λ _. drafting_of self.new
            ≡ record (drafting_of self.old) { begun = (drafting_of self.old).begun + 1 }) }
        ensures none { IfNone result (drafting_of self.new ≡ drafting_of self.old) }
        ensures room { is_some result ≡ nat_lt (drafting_of self.old).begun 2 }
    {
        match mem::replace(&mut self.unbegun, Unbegun::Neither) {
            Unbegun::Both(first, second) => {
                self.unbegun = Unbegun::Second(second);
                Some(first)
            }
            Unbegun::Second(second) => Some(second),
            Unbegun::Neither => None,
        }
    }

    // One reading more in the plan that is being written; 24 where none is.
    fn propose(&mut self, reading: Proposal) -> Result<Result<(), Refusal>, AllocError>
        ensures ok { IfOk result (λ told. (refusal_of told, drafting_of self.new)
            ≡ reading_added reading (drafting_of self.old)) }
        ensures unchanged { OnErr result (drafting_of self.new ≡ drafting_of self.old) }
        ensures err { OnErr result
            (NoRoom (reading_added reading (drafting_of self.old)) self.old) }
    {
        if self.memory.is_none() {
            return Ok(Err(Refusal::BadLine));
        }
        self.proposed.push(reading)?;
        Ok(Ok(()))
    }

    // The plan that is being written ends, and is ready if list and policy are made; 24 where none
    // is being written.
    fn finish(&mut self, planner: Planner) -> Result<(), Refusal>
        ensures { (refusal_of result, drafting_of self.new)
            ≡ plan_ended planner (drafting_of self.old) }
    {
        let memory = self.memory.take().ok_or(Refusal::BadLine)?;
        let plan = Plan::new(self.proposed.as_slice(), planner, memory)?;
        self.keep(plan);
        Ok(())
    }

    // The plan that began last is ready.
    fn keep(&mut self, plan: Plan<'a>)
        ensures { drafting_of self.new ≡ with_ready (plan_of plan.entry) (drafting_of self.old) }
    {
        if matches!(self.unbegun, Unbegun::Second(_)) {
            self.first = Some(plan);
        } else {
            self.second = Some(plan);
        }
    }
}
