use std::fmt;

/// What an example that is not refused comes to.
#[derive(Clone, Copy, PartialEq, Eq, Debug)]
pub enum Ending {
    /// A walk was granted.
    Granted {
        /// The mark of its repeat, an instant.
        mark: u16,
        /// The slots from the mark to the repeat.
        length: u16,
    },
    /// A number for each of three rows, in slots: a period, a response time or a first finish.
    EachRow(u16, u16, u16),
    /// A slot had no fault.
    Judged {
        /// The age at which a row was judged, in slots.
        age: u16,
        /// The row whose value went on show, counted from 1, if one did.
        shown: Option<u8>,
    },
    /// A test said yes or no.
    Says(bool),
    /// A strip was closed to a loop.
    Loop {
        /// The first slot of the loop.
        first: u16,
        /// The last slot inside the loop.
        last: u16,
    },
    /// Five slots.
    Slots(u16, u16, u16, u16, u16),
}

impl fmt::Display for Ending {
    fn fmt<W: fmt::Write>(&self, f: &mut fmt::Formatter<W>) -> fmt::Result {
        match self {
            Ending::Granted { mark, length } => write!(f, "mark {mark}, length {length}"),
            Ending::EachRow(first, second, third) => write!(f, "{first}, {second}, {third}"),
            Ending::Judged {
                age,
                shown: Some(row),
            } => write!(f, "age {age} fresh, row {row} shown"),
            Ending::Judged { age, shown: None } => write!(f, "age {age} fresh"),
            Ending::Says(true) => write!(f, "yes"),
            Ending::Says(false) => write!(f, "no"),
            Ending::Loop { first, last } => write!(f, "loop {first} to {last}"),
            Ending::Slots(first, second, third, fourth, fifth) => write!(
                f,
                "{first}, {second}, {third}, {fourth}, {fifth}"
            ),
        }
    }
}
