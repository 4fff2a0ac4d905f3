/// Which of the images that a crash may leave.
#[derive(Clone, Copy, Debug, PartialEq, Eq)]
pub enum Choice {
    /// The bytes of the last good sync.
    Old,
    /// What a read gives.
    New,
    /// What a read gives, with each byte that was written since the last good sync replaced by 255.
    Torn,
}
