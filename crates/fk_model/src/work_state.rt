/// What a worker is told to do, in the order in which the states rise.
#[derive(Clone, Copy, PartialEq, Eq)]
pub enum WorkState {
    /// It fetches jobs.
    Running,
    /// It gets no new job.
    Quiet,
    /// It gets no new job, and is to end.
    Terminate,
}
