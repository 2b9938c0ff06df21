use crate::candidates::{Candidates, MoreLessOrStrip, Pair, StripCandidates};
use crate::exchange::{AskedCall, Exchange};
use crate::kinds::{Inactive, NeverAlike};
use periodic::Periodic;
use readings::Refusal;

// Each run is the calls of one board, with the replies that the rules give.

// X by More-Less for six ticks.
pub(crate) fn day(candidates: &Candidates) -> [Exchange<'_, Periodic>; 9] {
    [
        Exchange::start(&candidates.x, 31, 28),
        Exchange::tick(7, 1, 1),
        Exchange::tick(0, 2, 0),
        Exchange::tick(0, 2, 2),
        Exchange::tick(0, 3, 0),
        Exchange::tick(1, 1, 1),
        Exchange::tick(0, 3, 3),
        Exchange::value(9, 6, 20),
        Exchange::refused(AskedCall::Show(12), Refusal::UnknownId),
    ]
}

// A walk meets a stale row, and the board goes on to rest.
pub(crate) fn inactive(candidates: &Candidates) -> [Exchange<'_, Inactive>; 2] {
    [
        Exchange::refused(
            AskedCall::Start(&candidates.inactive),
            Refusal::Stale { slot: 5, row: 1 },
        ),
        Exchange::refused(AskedCall::Tick, Refusal::Resting),
    ]
}

// A walk finds no repeat.
pub(crate) fn never_alike(candidates: &Candidates) -> [Exchange<'_, NeverAlike<Periodic>>; 2] {
    [
        Exchange::refused(AskedCall::Start(&candidates.never_alike), Refusal::NoRepeat),
        Exchange::refused(AskedCall::Tick, Refusal::Resting),
    ]
}

// A bank is granted or refused by the policy that it uses, and what is refused leaves the board as
// it was.
pub(crate) fn bank(candidates: &Candidates) -> [Exchange<'_, Pair>; 9] {
    let stale = Refusal::Stale { slot: 5, row: 1 };
    let second = &candidates.second_of_pair;
    [
        Exchange::refused(AskedCall::Start(second), stale),
        Exchange::refused(AskedCall::Tick, Refusal::Resting),
        Exchange::start(&candidates.first_of_pair, 31, 28),
        Exchange::tick(7, 1, 1),
        Exchange::value(7, 1, 5),
        Exchange::refused(AskedCall::Switch(second, 10), stale),
        Exchange::value(7, 1, 5),
        Exchange::tick(0, 2, 0),
        Exchange::tick(0, 2, 2),
    ]
}

// X crosses to W within the call of the switch, between two ticks. 7 and 9 are shared, 8 leaves,
// and 12 comes on.
pub(crate) fn crossing_at_once(candidates: &Candidates) -> [Exchange<'_, Periodic>; 23] {
    [
        Exchange::start(&candidates.x, 31, 28),
        Exchange::tick(7, 1, 1),
        Exchange::tick(0, 2, 0),
        Exchange::tick(0, 2, 2),
        Exchange::tick(0, 3, 0),
        Exchange::tick(1, 1, 1),
        Exchange::tick(0, 3, 3),
        Exchange::value(7, 2, 5),
        Exchange::value(8, 6, 10),
        Exchange::value(9, 6, 20),
        Exchange::refused(AskedCall::Show(12), Refusal::UnknownId),
        Exchange::switch(&candidates.w, 0, 0),
        Exchange::value(7, 2, 6),
        Exchange::refused(AskedCall::Show(8), Refusal::UnknownId),
        Exchange::value(9, 6, 9),
        Exchange::no_value(12, 0, 20),
        Exchange::tick(7, 1, 1),
        Exchange::tick(0, 2, 0),
        Exchange::tick(0, 2, 2),
        Exchange::tick(0, 3, 0),
        Exchange::tick(0, 3, 3),
        Exchange::value(9, 5, 9),
        Exchange::value(12, 5, 20),
    ]
}

// X waits for its third row's job to cross to W, in three ticks. Until then X runs, and nothing
// else may be asked to run.
pub(crate) fn crossing_later(candidates: &Candidates) -> [Exchange<'_, Periodic>; 25] {
    let w = &candidates.w;
    [
        Exchange::start(&candidates.x, 31, 28),
        Exchange::tick(7, 1, 1),
        Exchange::tick(0, 2, 0),
        Exchange::tick(0, 2, 2),
        Exchange::value(7, 3, 5),
        Exchange::value(8, 3, 10),
        Exchange::no_value(9, 3, 20),
        Exchange::refused(AskedCall::Switch(w, 2), Refusal::NoInstant),
        Exchange::switch(w, 10, 3),
        Exchange::refused(AskedCall::Switch(w, 10), Refusal::CrossingWaits),
        Exchange::refused(AskedCall::Switch(w, 4096), Refusal::CrossingWaits),
        Exchange::refused(AskedCall::Start(w), Refusal::Running),
        Exchange::tick(0, 3, 0),
        Exchange::tick(1, 1, 1),
        Exchange::value(7, 1, 5),
        Exchange::value(8, 5, 10),
        Exchange::no_value(9, 5, 20),
        Exchange::refused(AskedCall::Show(12), Refusal::UnknownId),
        Exchange::crossing_tick(0, 3, 3),
        Exchange::value(7, 2, 6),
        Exchange::refused(AskedCall::Show(8), Refusal::UnknownId),
        Exchange::value(9, 6, 9),
        Exchange::no_value(12, 0, 20),
        Exchange::tick(7, 1, 1),
        Exchange::tick(0, 2, 0),
    ]
}

// No job of X is open, and the value of 9 is too old for W until its next one comes. For U it is
// always too old.
pub(crate) fn crossing_late(candidates: &Candidates) -> [Exchange<'_, Periodic>; 30] {
    let (w, u) = (&candidates.w, &candidates.u);
    [
        Exchange::start(&candidates.x, 31, 28),
        Exchange::tick(7, 1, 1),
        Exchange::tick(0, 2, 0),
        Exchange::tick(0, 2, 2),
        Exchange::tick(0, 3, 0),
        Exchange::tick(1, 1, 1),
        Exchange::tick(0, 3, 3),
        Exchange::tick(0, 0, 0),
        Exchange::value(9, 7, 20),
        Exchange::refused(AskedCall::Switch(w, 11), Refusal::NoInstant),
        Exchange::refused(AskedCall::Switch(u, 4095), Refusal::NoInstant),
        Exchange::refused(AskedCall::Switch(w, 4096), Refusal::Latency),
        Exchange::value(9, 7, 20),
        Exchange::switch(w, 12, 12),
        Exchange::tick(2, 2, 0),
        Exchange::tick(1, 1, 1),
        Exchange::tick(0, 2, 2),
        Exchange::tick(0, 0, 0),
        Exchange::tick(0, 0, 0),
        Exchange::tick(1, 1, 1),
        Exchange::tick(0, 0, 0),
        Exchange::tick(6, 2, 0),
        Exchange::tick(0, 2, 2),
        Exchange::tick(1, 1, 1),
        Exchange::tick(0, 3, 0),
        Exchange::value(9, 18, 20),
        Exchange::crossing_tick(0, 3, 3),
        Exchange::value(9, 5, 9),
        Exchange::no_value(12, 0, 20),
        Exchange::tick(7, 1, 1),
    ]
}

// A stop while a crossing waits drops it; a second day is as the first, and a third runs another
// list.
pub(crate) fn further_days(candidates: &Candidates) -> [Exchange<'_, Periodic>; 25] {
    let (x, w) = (&candidates.x, &candidates.w);
    [
        Exchange::start(x, 31, 28),
        Exchange::tick(7, 1, 1),
        Exchange::tick(0, 2, 0),
        Exchange::tick(0, 2, 2),
        Exchange::switch(w, 10, 3),
        Exchange::tick(0, 3, 0),
        Exchange::stop(),
        Exchange::refused(AskedCall::Show(9), Refusal::Resting),
        Exchange::refused(AskedCall::Tick, Refusal::Resting),
        Exchange::refused(AskedCall::Stop, Refusal::Resting),
        Exchange::refused(AskedCall::Switch(w, 10), Refusal::Resting),
        Exchange::start(x, 31, 28),
        Exchange::no_value(7, 0, 5),
        Exchange::tick(7, 1, 1),
        Exchange::tick(0, 2, 0),
        Exchange::tick(0, 2, 2),
        Exchange::tick(0, 3, 0),
        Exchange::tick(1, 1, 1),
        Exchange::tick(0, 3, 3),
        Exchange::value(9, 6, 20),
        Exchange::stop(),
        Exchange::start(w, 31, 30),
        Exchange::refused(AskedCall::Show(8), Refusal::UnknownId),
        Exchange::no_value(9, 0, 9),
        Exchange::tick(7, 1, 1),
    ]
}

// X by a strip waits to cross to X by More-Less, the other policy of a bank. At each instant before
// the seventh a job is open or a value is too old.
pub(crate) fn crossing_from_strip<'a, 's>(
    candidates: &'a StripCandidates<'s>,
) -> [Exchange<'a, MoreLessOrStrip<'s>>; 47] {
    let (more_less, deferrable) = (&candidates.more_less, &candidates.deferrable);
    [
        Exchange::start(deferrable, 63, 16),
        Exchange::tick(7, 1, 1),
        Exchange::tick(0, 2, 0),
        Exchange::tick(0, 2, 2),
        Exchange::tick(0, 3, 0),
        Exchange::tick(1, 1, 1),
        Exchange::tick(0, 3, 3),
        Exchange::tick(0, 0, 0),
        Exchange::tick(2, 2, 0),
        Exchange::tick(1, 1, 1),
        Exchange::tick(0, 2, 2),
        Exchange::tick(0, 0, 0),
        Exchange::tick(0, 0, 0),
        Exchange::tick(1, 1, 1),
        Exchange::tick(0, 0, 0),
        Exchange::tick(2, 2, 0),
        Exchange::tick(0, 2, 2),
        Exchange::tick(1, 1, 1),
        Exchange::tick(0, 0, 0),
        Exchange::tick(4, 3, 0),
        Exchange::tick(0, 3, 3),
        Exchange::tick(1, 1, 1),
        Exchange::tick(0, 0, 0),
        Exchange::tick(2, 2, 0),
        Exchange::tick(0, 2, 2),
        Exchange::tick(1, 1, 1),
        Exchange::tick(0, 0, 0),
        Exchange::tick(0, 0, 0),
        Exchange::tick(0, 0, 0),
        Exchange::tick(1, 1, 1),
        Exchange::tick(0, 0, 0),
        Exchange::tick(2, 2, 0),
        Exchange::tick(0, 2, 2),
        Exchange::tick(1, 1, 1),
        Exchange::refused(AskedCall::Switch(more_less, 6), Refusal::NoInstant),
        Exchange::switch(more_less, 7, 7),
        Exchange::tick(0, 0, 0),
        Exchange::tick(0, 0, 0),
        Exchange::tick(4, 3, 0),
        Exchange::tick(1, 1, 1),
        Exchange::tick(0, 3, 3),
        Exchange::tick(2, 2, 0),
        Exchange::crossing_tick(0, 2, 2),
        Exchange::value(7, 4, 5),
        Exchange::value(8, 2, 10),
        Exchange::value(9, 5, 20),
        Exchange::tick(7, 1, 1),
    ]
}
