use crate::Place;
use fk_job::{Job, Stamp};

/// What the server keeps of one push: the job with its defaults, what the server added to it, and
/// where it stands.
#[derive(Drop)]
pub struct Row {
    pub job: Job,
    pub stamp: Stamp,
    pub place: Place,
}
