ghost use Rattle.std.specs.Prelude.{◌≡◌, ℕ, OnErr, List, min, length, take, drop};
ghost use Rattle.board.specs.Ages.{Means};
ghost use Rattle.board.specs.Answers.{InWindow};
ghost use Rattle.board.specs.Held.{log_of};
ghost use Rattle.board.specs.History.{History, no_history};
ghost use Rattle.board.specs.Log.{Reply, replies_of, reply_of, resting};
ghost use Rattle.board.specs.Promise.{AllAnswered, AllMean, KeepsPromise, history_after_all, log_after_all};
ghost use Rattle.board.specs.Requests.{request_of, requests_of, show, start, stop, switch, tick};
ghost use Rattle.board.specs.Tallies.{Tallies};
ghost use Rattle.readings.specs.Lists.{rows_of as readings_of};
ghost use Rattle.walk.specs.Plans.{repeat_length, repeat_mark};

use crate::call::{Call, Grant, Shown, Started, Ticked};
use crate::run::Run;
use policy::Policy;
use readings::{Readings, Refusal};
use walk::Accepted;

/// A board: it rests, or it runs an accepted plan slot by slot. It holds what an operator's log of
/// its calls would note (`log_of`), and keeps the promise for that log in every call.
#[derive(Drop)]
pub struct Board<P: Policy> {
    run: Option<Run<P>>,
}

// What a start grants for the plan that it runs.
fn started_of<P: Policy>(plan: &Accepted<P>) -> Started
    ensures { result ≡ record { mark = repeat_mark plan.now; length = repeat_length plan.now } }
{
    Started {
        mark: plan.mark(),
        length: plan.length(),
    }
}

// How many of these calls have room for a reply.
fn room<P>(calls: &[Call<P>], replies: &[Result<Grant, Refusal>]) -> usize
    ensures { result ≡ min (length calls.now) (length replies.now) }
{
    calls.len().min(replies.len())
}

impl<P: Policy> Board<P> {
    /// A board that rests.
    pub fn new() -> Board<P>
        ensures { log_of result ≡ resting }
    {
        Board { run: None }
    }

    /// Walks a policy for a list and, if the walk accepts it, runs it from now on with new books;
    /// answers the walk's mark and length. Refused while the board runs (15), and as the walk
    /// refuses (11 to 13).
    pub fn start(&mut self, list: &Readings, policy: P) -> Result<Started, Refusal>
        ensures promise { KeepsPromise self.old
            (start (readings_of list.now) (P.position policy))
            (reply_of Grant.Started result) self.new }
        ensures err { OnErr result (self.new ≡ self.old) }
    {
        if self.run.is_some() {
            return Err(Refusal::Running);
        }
        let plan = Accepted::walk(list, policy)?;
        let started = started_of(&plan);
        self.run = Some(Run::new(plan));
        Ok(started)
    }

    /// Lets a slot pass: answers the rows sampled, the row run, the row whose value went on show,
    /// or 0, and whether a crossing happened at its end. Refused while the board rests (14).
    pub fn tick(&mut self) -> Result<Ticked, Refusal>
        ensures promise { KeepsPromise self.old tick (reply_of Grant.Ticked result) self.new }
        ensures err { OnErr result (self.new ≡ self.old) }
    {
        match &mut self.run {
            None => Err(Refusal::Resting),
            Some(run) => Ok(run.tick()),
        }
    }

    /// Looks for the first instant, from now to so many ticks ahead, at which no job is open and a
    /// plan may cross in without a shared reading ever going stale; answers the ticks until then.
    /// Both ends of the window are inside. The crossing happens at the end of that tick, or within
    /// the call for 0. Refused, in this order, while the board rests (14), while a crossing waits
    /// (16), for a latency above 4,095 ticks (17), as the walk refuses (11 to 13), and where there
    /// is no such instant (18).
    pub fn switch(&mut self, list: &Readings, policy: P, latency: u16) -> Result<u16, Refusal>
        ensures promise { KeepsPromise self.old
            (switch (readings_of list.now) (P.position policy) latency)
            (reply_of Grant.Switched result) self.new }
        ensures window { InWindow latency 0 × InWindow latency latency }
        ensures err { OnErr result (self.new ≡ self.old) }
    {
        match &mut self.run {
            None => Err(Refusal::Resting),
            Some(run) => run.switch(list, policy, latency),
        }
    }

    /// How old the reading of an id is: whether a value of it is on show, its age and its validity,
    /// in slots. Without a value the age counts the slots since the id came on. Refused while the
    /// board rests (14), and where the list in use has no such id (19).
    pub fn show(&self, id: u16) -> Result<Shown, Refusal>
        ensures { KeepsPromise self.now (show id) (reply_of Grant.Shown result) self.now }
    {
        let run = self.run.as_ref().ok_or(Refusal::Resting)?;
        run.show(id)
    }

    /// The board rests, and forgets all that it held, a crossing that waits too. Refused while it
    /// rests (14).
    pub fn stop(&mut self) -> Result<(), Refusal>
        ensures promise { KeepsPromise self.old stop
            (reply_of (λ _. Grant.Stopped) result) self.new }
        ensures err { OnErr result (self.new ≡ self.old) }
    {
        if self.run.is_none() {
            return Err(Refusal::Resting);
        }
        self.run = None;
        Ok(())
    }

    /// Asks the board one call. A refusal, and every show, leaves the board equal to what it was.
    pub fn ask(&mut self, call: &Call<P>) -> Result<Grant, Refusal>
        ensures promise { KeepsPromise self.old (request_of P.Policy call.now)
            (reply_of (λ g. g) result) self.new }
        ensures err { OnErr result (self.new ≡ self.old) }
        ensures shown { (id : ℕ) → request_of P.Policy call.now ≡ show id → self.new ≡ self.old }
    {
        match call {
            Call::Start { list, policy } => self.start(list, policy.copy()).map(Grant::Started),
            Call::Tick => self.tick().map(Grant::Ticked),
            Call::Switch {
                list,
                policy,
                latency,
            } => self
                .switch(list, policy.copy(), *latency)
                .map(Grant::Switched),
            Call::Show { id } => self.show(*id).map(Grant::Shown),
            Call::Stop => self.stop().map(|()| Grant::Stopped),
        }
    }

    /// Asks the board these calls, one after the other, as many as there is room for replies;
    /// answers how many they were. The replies are those that the log gives which the board holds,
    /// with all that the promise says, and no others would do. Replies past their number stay as
    /// they were.
    pub fn ask_all(&mut self, calls: &[Call<P>], replies: &mut [Result<Grant, Refusal>]) -> usize
        ensures count { result ≡ min (length calls.now) (length replies.old) }
        ensures answers { AllAnswered P.meaning (log_of self.old)
            (requests_of P.Policy (take result calls.now)) (replies_of (take result replies.new)) }
        ensures only { (others : List Reply)
            → AllAnswered P.meaning (log_of self.old)
            (requests_of P.Policy (take result calls.now)) others
            → others ≡ replies_of (take result replies.new) }
        ensures log { log_of self.new
            ≡ log_after_all P.meaning (requests_of P.Policy (take result calls.now))
            (replies_of (take result replies.new)) (log_of self.old) }
        ensures ages { (h : History) → Tallies (log_of self.old) h
            → AllMean h (requests_of P.Policy (take result calls.now))
            (replies_of (take result replies.new)) }
        ensures ages_from_rest { log_of self.old ≡ resting
            → AllMean no_history (requests_of P.Policy (take result calls.now))
            (replies_of (take result replies.new)) }
        ensures tallies { (h : History) → Tallies (log_of self.old) h
            → Tallies (log_of self.new)
            (history_after_all (requests_of P.Policy (take result calls.now))
            (replies_of (take result replies.new)) h) }
        ensures rest { drop result replies.new ≡ drop result replies.old }
    {
        let count = room(calls, replies);
        for k in 0..count {
            replies[k] = self.ask(&calls[k]);
        }
        count
    }
}
