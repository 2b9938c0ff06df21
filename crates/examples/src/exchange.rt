use crate::candidates::Candidate;
use board::call::{Call, Grant, Shown, Started, Ticked};
use policy::Policy;
use readings::Refusal;
use std::fmt;

/// A call of a run. `T` stands for the candidate that it names.
#[derive(Drop)]
pub enum AskedCall<T> {
    /// A candidate is to run.
    Start(T),
    /// A slot passes.
    Tick,
    /// A candidate is to cross in, within so many ticks.
    Switch(T, u16),
    /// How old is the value of the reading with this id?
    Show(u16),
    /// The board is to rest.
    Stop,
}

impl<P: Policy> AskedCall<&Candidate<P>> {
    // The call of a board.
    pub(crate) fn call(&self) -> Call<P> {
        match self {
            AskedCall::Start(candidate) => Call::Start {
                list: candidate.list,
                policy: candidate.policy.copy(),
            },
            AskedCall::Tick => Call::Tick,
            AskedCall::Switch(candidate, latency) => Call::Switch {
                list: candidate.list,
                policy: candidate.policy.copy(),
                latency: *latency,
            },
            AskedCall::Show(id) => Call::Show { id: *id },
            AskedCall::Stop => Call::Stop,
        }
    }
}

impl<T: fmt::Display> fmt::Display for AskedCall<T> {
    fn fmt<W: fmt::Write>(&self, f: &mut fmt::Formatter<W>) -> fmt::Result {
        match self {
            AskedCall::Start(candidate) => write!(f, "start {candidate}"),
            AskedCall::Tick => write!(f, "tick"),
            AskedCall::Switch(candidate, latency) => write!(
                f,
                "switch to {candidate} within {latency}"
            ),
            AskedCall::Show(id) => write!(f, "show {id}"),
            AskedCall::Stop => write!(f, "stop"),
        }
    }
}

/// A call of a run, with the reply that the rules give.
#[derive(Drop)]
pub struct Exchange<'a, P> {
    /// The call.
    pub call: AskedCall<&'a Candidate<P>>,
    /// The reply.
    pub expected: Result<Grant, Refusal>,
}

impl<'a, P> Exchange<'a, P> {
    // A granted start.
    pub(crate) fn start(candidate: &'a Candidate<P>, mark: u16, length: u16) -> Exchange<'a, P> {
        Exchange {
            call: AskedCall::Start(candidate),
            expected: Ok(Grant::Started(Started { mark, length })),
        }
    }

    // A tick without a crossing: the rows sampled as a mask, the row run and the row shown, 0 for
    // none.
    pub(crate) fn tick(sampled: u16, run: u8, shown: u8) -> Exchange<'a, P> {
        Exchange::ticked(sampled, run, shown, false)
    }

    // A tick with a crossing at its end.
    pub(crate) fn crossing_tick(sampled: u16, run: u8, shown: u8) -> Exchange<'a, P> {
        Exchange::ticked(sampled, run, shown, true)
    }

    // A tick, with or without a crossing at its end.
    fn ticked(sampled: u16, run: u8, shown: u8, crossed: bool) -> Exchange<'a, P> {
        Exchange {
            call: AskedCall::Tick,
            expected: Ok(Grant::Ticked(Ticked {
                sampled,
                run,
                shown,
                crossed,
            })),
        }
    }

    // A granted switch.
    pub(crate) fn switch(candidate: &'a Candidate<P>, latency: u16, ticks: u16) -> Exchange<'a, P> {
        Exchange {
            call: AskedCall::Switch(candidate, latency),
            expected: Ok(Grant::Switched(ticks)),
        }
    }

    // A show of an id that has a value.
    pub(crate) fn value(id: u16, age: u16, validity: u16) -> Exchange<'a, P> {
        Exchange::shown(id, true, age, validity)
    }

    // A show of an id that has none yet.
    pub(crate) fn no_value(id: u16, age: u16, validity: u16) -> Exchange<'a, P> {
        Exchange::shown(id, false, age, validity)
    }

    // A show of an id, with or without a value.
    fn shown(id: u16, value: bool, age: u16, validity: u16) -> Exchange<'a, P> {
        Exchange {
            call: AskedCall::Show(id),
            expected: Ok(Grant::Shown(Shown {
                value,
                age,
                validity,
            })),
        }
    }

    // A granted stop.
    pub(crate) fn stop() -> Exchange<'a, P> {
        Exchange {
            call: AskedCall::Stop,
            expected: Ok(Grant::Stopped),
        }
    }

    // Any call, refused.
    pub(crate) fn refused(call: AskedCall<&'a Candidate<P>>, refusal: Refusal) -> Exchange<'a, P> {
        Exchange {
            call,
            expected: Err(refusal),
        }
    }
}
