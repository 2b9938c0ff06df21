ghost use Rattle.std.specs.Prelude.{◌≡◌, ◌≤◌};
ghost use Rattle.readings.specs.Proposals.{is_in_range, kept};

/// A reading of a list.
#[derive(Clone, Copy, PartialEq, Eq, Debug, Default)]
pub struct Reading {
    /// The number that it goes by, from 1 to 65,535.
    pub id: u16,
    /// Its work length C: the slots that a job which refreshes it has to run, from 1 to 255.
    pub work: u8,
    /// Its validity V: the slots for which a sample may be trusted, from 2 to 4,095 and at least C.
    pub validity: u16,
}

/// The same three numbers as they are given, before they are judged: wide enough that none is cut.
#[derive(Clone, Copy, PartialEq, Eq, Debug, Default)]
pub struct Proposal {
    /// The number that the reading would go by.
    pub id: u32,
    /// Its work length, in slots.
    pub work: u32,
    /// Its validity, in slots.
    pub validity: u32,
}

impl Proposal {
    /// A reading as it is given: any three numbers, the lengths in slots.
    pub fn new(id: u32, work: u32, validity: u32) -> Proposal
        ensures { result ≡ record { id = id; work = work; validity = validity } }
    {
        Proposal { id, work, validity }
    }

    // Whether work length and validity are in range.
    pub(crate) fn is_in_range(&self) -> bool
        ensures { result ≡ is_in_range self.now }
    {
        (1..=255).contains(&self.work)
            && (2..=4095).contains(&self.validity)
            && self.work <= self.validity
    }

    // The reading of these numbers, which no type cuts.
    pub(crate) fn kept(&self) -> Reading
        requires id { self.now.id ≤ 65535 }
        requires work { self.now.work ≤ 255 }
        requires validity { self.now.validity ≤ 4095 }
        ensures { result ≡ kept self.now }
    {
        Reading {
            id: self.id as u16,
            work: self.work as u8,
            validity: self.validity as u16,
        }
    }
}
