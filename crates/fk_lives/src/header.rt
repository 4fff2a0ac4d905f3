/// What the header of a file tells.
#[derive(Clone, Copy)]
pub struct Header {
    /// The file's generation: of two files the one with the greater generation is live.
    pub generation: u64,
    /// The number of the last piece before this file.
    pub base: u64,
    /// How many bytes the snapshot has.
    pub length: u64,
}
