use readings::{Proposal, Readings, Refusal};

// The list of readings 7, 8 and 9, each with its work length and validity.
pub(crate) fn list_of(rows: [(u32, u32); 3]) -> Result<Readings, Refusal> {
    let [first, second, third] = rows;
    Readings::new(&[proposal(7, first), proposal(8, second), proposal(9, third)])
}

// A reading with an id, and its work length and validity.
pub(crate) fn proposal(id: u32, (work, validity): (u32, u32)) -> Proposal {
    Proposal::new(id, work, validity)
}

// List X of the worked examples.
pub(crate) fn list_x() -> Result<Readings, Refusal> {
    list_of([(1, 5), (2, 10), (2, 20)])
}
