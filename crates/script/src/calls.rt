use crate::drafts::Drafts;
use crate::reply::LineReply;
use crate::sink::Sink;
use board::Board;
use board::call::Call;
use lines::{CallLine, Command};
use periodic::Periodic;
use policy::{Bank, Policy};
use readings::Refusal;
use strip::Player;

/// The second phase of a script: the calls of one board, with the plans that have been written.
#[derive(Drop)]
pub struct Calls<'s, 'a> {
    drafts: &'s Drafts<'a>,
    board: Board<Bank<Periodic, Player<'s>>>,
}

impl<'s, 'a> Calls<'s, 'a> {
    ghost use Rattle.board.specs.History.{History, no_history};
    ghost use Rattle.board.specs.Requests.{request_of};
    ghost use Rattle.script.specs.Calls.{CallAnswered, CallLineAnswered};
    ghost use Rattle.script.specs.Held.{drafts_state, state_of};
    ghost use Rattle.script.specs.Lines.{CommandAnswered, LineAnswered};
    ghost use Rattle.script.specs.Sinks.{GivesAll, GivesOne, GivesSome};
    ghost use Rattle.script.specs.States.{Tallied, once_called};
    ghost use Rattle.std.specs.Prelude.{◌≡◌, OnErr, OnOk};

    /// A board that rests, and may be called with these plans.
    pub fn new(drafts: &'s Drafts<'a>) -> Calls<'s, 'a>
        ensures state { state_of result no_history ≡ once_called (drafts_state drafts.now) }
        ensures tallied { Tallied (state_of result no_history) }
    {
        Calls {
            drafts,
            board: Board::new(),
        }
    }

    /// Answers a line, given without the byte that ends it: hands the sink a reply to each tick of
    /// a line of ticks, up to the first that is refused, and one reply to any other line. A line of
    /// a plan is out of place (24). Where the sink fails it has got a beginning of the replies, and
    /// the board may have done more of the line than that.
    pub fn line<S: Sink>(&mut self, line: &[u8], sink: &mut S) -> Result<(), S::Error>
        ensures ok { OnOk result ((h : History) → Tallied (state_of self.old h)
            → (later : History) × GivesAll S.with_one (S.got sink.old) (S.got sink.new)
            (LineAnswered line.now) (state_of self.old h) (state_of self.new later)) }
        ensures begun { OnErr result ((h : History) → Tallied (state_of self.old h)
            → GivesSome S.with_one (S.got sink.old) (S.got sink.new)
            (LineAnswered line.now) (state_of self.old h)) }
    {
        match Command::of(line) {
            None => sink.take(LineReply::Refused(Refusal::BadLine)),
            Some(Command::Plan(_)) => sink.take(LineReply::Refused(Refusal::BadLine)),
            Some(Command::Call(line)) => self.call_line(line, sink),
        }
    }

    // Answers a call of the board.
    fn call_line<S: Sink>(&mut self, line: CallLine, sink: &mut S) -> Result<(), S::Error>
        ensures ok { OnOk result ((h : History) → Tallied (state_of self.old h)
            → (later : History) × GivesAll S.with_one (S.got sink.old) (S.got sink.new)
            (CommandAnswered (Command.Call line)) (state_of self.old h) (state_of self.new later)) }
        ensures begun { OnErr result ((h : History) → Tallied (state_of self.old h)
            → GivesSome S.with_one (S.got sink.old) (S.got sink.new)
            (CommandAnswered (Command.Call line)) (state_of self.old h)) }
    {
        if self.drafts.is_writing() {
            return sink.take(LineReply::Refused(Refusal::BadLine));
        }
        match line {
            CallLine::Start { plan } => sink.take(self.start(plan)),
            CallLine::Tick { ticks } => self.ticks(ticks, sink),
            CallLine::Switch { plan, latency } => sink.take(self.switch(plan, latency)),
            CallLine::Show { id } => sink.take(self.call(&Call::Show { id })),
            CallLine::Stop => sink.take(self.call(&Call::Stop)),
        }
    }

    // Runs the plan of a number.
    fn start(&mut self, number: u16) -> LineReply
        ensures { (h : History) → Tallied (state_of self.old h)
            → (later : History) × GivesOne (CallLineAnswered (CallLine.Start number))
            (state_of self.old h) result (state_of self.new later) }
    {
        match self.drafts.plan(number) {
            None => LineReply::Refused(Refusal::NoPlan),
            Some(plan) => self.call(&Call::Start {
                list: plan.list,
                policy: plan.bank(),
            }),
        }
    }

    // Has the plan of a number cross in, at most so many ticks from now.
    fn switch(&mut self, number: u16, latency: u16) -> LineReply
        ensures { (h : History) → Tallied (state_of self.old h)
            → (later : History) × GivesOne (CallLineAnswered (CallLine.Switch number latency))
            (state_of self.old h) result (state_of self.new later) }
    {
        match self.drafts.plan(number) {
            None => LineReply::Refused(Refusal::NoPlan),
            Some(plan) => self.call(&Call::Switch {
                list: plan.list,
                policy: plan.bank(),
                latency,
            }),
        }
    }

    // So many ticks, a reply each; a refused one is the last.
    fn ticks<S: Sink>(&mut self, count: u16, sink: &mut S) -> Result<(), S::Error>
        ensures ok { OnOk result ((h : History) → Tallied (state_of self.old h)
            → (later : History) × GivesAll S.with_one (S.got sink.old) (S.got sink.new)
            (CallLineAnswered (CallLine.Tick count)) (state_of self.old h)
            (state_of self.new later)) }
        ensures begun { OnErr result ((h : History) → Tallied (state_of self.old h)
            → GivesSome S.with_one (S.got sink.old) (S.got sink.new)
            (CallLineAnswered (CallLine.Tick count)) (state_of self.old h)) }
    {
        let call = Call::Tick;
        for tick in 0..count {
            let reply = self.call(&call);
            sink.take(reply)?;
            if reply.is_refused() {
                return Ok(());
            }
        }
        Ok(())
    }

    // Calls the board.
    fn call(&mut self, call: &Call<Bank<Periodic, Player<'s>>>) -> LineReply
        ensures { (h : History) → Tallied (state_of self.old h)
            → (later : History)
            × GivesOne (CallAnswered (request_of ⟦<Bank<Periodic, Player<'s>> as Policy>⟧ call.now))
            (state_of self.old h) result (state_of self.new later) }
    {
        self.board.ask(call).into()
    }
}
