/// The span of a job: the slots from its sample on and before its deadline.
#[derive(Clone, Copy, PartialEq, Eq, Debug)]
pub struct Span {
    /// The slot at whose beginning the job is sampled.
    pub sample: u16,
    /// Its deadline: the slot by whose beginning its work is done.
    pub deadline: u16,
}
