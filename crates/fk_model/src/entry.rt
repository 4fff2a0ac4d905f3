use crate::{Answer, Ask, Told};

/// One turn in the history of a server.
#[derive(Drop)]
pub struct Entry {
    /// The number of the seat that asked, from 0.
    pub seat: u64,
    pub ask: Ask,
    pub told: Told,
    pub answer: Answer,
}
