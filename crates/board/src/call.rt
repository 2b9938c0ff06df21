use readings::Readings;

/// A call to a board.
#[derive(Drop)]
pub enum Call<P> {
    /// A plan is to run.
    Start {
        /// The list of its readings.
        list: Readings,
        /// Its policy, at the position of its first slot.
        policy: P,
    },
    /// A slot passes.
    Tick,
    /// Another plan is to cross in.
    Switch {
        /// The list of its readings.
        list: Readings,
        /// Its policy, at the position of its first slot.
        policy: P,
        /// The most ticks from now until the crossing, 0 to 4,095.
        latency: u16,
    },
    /// How old is the value of a reading?
    Show {
        /// The id of the reading.
        id: u16,
    },
    /// The board is to rest.
    Stop,
}

/// What a start grants: where its walk found a repeat.
#[derive(Clone, Copy, PartialEq, Eq, Debug)]
pub struct Started {
    /// The mark of the repeat, an instant.
    pub mark: u16,
    /// The slots from the mark to the repeat.
    pub length: u16,
}

/// What a tick grants: what happened in its slot.
#[derive(Clone, Copy, PartialEq, Eq, Debug)]
pub struct Ticked {
    /// The rows sampled as a mask, row k standing for 2^(k - 1).
    pub sampled: u16,
    /// The row run, counted from 1, or 0 for none.
    pub run: u8,
    /// The row whose value went on show, counted from 1, or 0 for none.
    pub shown: u8,
    /// Whether a crossing happened at the end of the tick.
    pub crossed: bool,
}

/// What a show grants: how old a reading is.
#[derive(Clone, Copy, PartialEq, Eq, Debug)]
pub struct Shown {
    /// Whether a value is on show.
    pub value: bool,
    /// The slots since the sample of that value or, without one, since the id came on.
    pub age: u16,
    /// The validity of the reading, in slots.
    pub validity: u16,
}

/// What a board grants to a call.
#[derive(Clone, Copy, PartialEq, Eq, Debug)]
pub enum Grant {
    /// A plan runs.
    Started(Started),
    /// A slot has passed.
    Ticked(Ticked),
    /// A crossing comes after so many ticks, 0 for at once.
    Switched(u16),
    /// How old a reading is.
    Shown(Shown),
    /// The board rests.
    Stopped,
}
