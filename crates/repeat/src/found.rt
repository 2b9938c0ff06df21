/// A search's repeat: the state at `instant` compares yes with the one at `mark`, its mark.
#[derive(Clone, Copy, PartialEq, Eq, Debug)]
pub struct Repeat {
    /// The mark of that instant: the largest number below it of the form 2^k - 1.
    pub mark: u16,
    /// The first instant that repeats, from 1 on: so many steps from the start.
    pub instant: u16,
}

/// Why a search has no repeat.
#[derive(Clone, Copy, Drop, PartialEq, Eq, Debug)]
pub enum NoRepeat<F> {
    /// The first fault comes before any repeat.
    Fault {
        /// The slot of the step that meets it, counted from 0.
        slot: u16,
        /// The fault.
        fault: F,
    },
    /// There is neither a fault nor a repeat up to the limit.
    Nowhere,
}
