use fk_job::Failure;
use fk_model::Place;

/// What a move says of a row but its job and when it was pushed.
#[derive(Drop)]
pub(crate) struct Rest {
    pub(crate) enqueued: Option<u64>,
    pub(crate) failure: Option<Failure>,
    pub(crate) place: Place,
}
