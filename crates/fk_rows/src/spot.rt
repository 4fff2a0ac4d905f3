/// Where a row stands, or would stand: in which chunk, and at which place of it.
#[derive(Clone, Copy)]
pub(crate) struct Spot {
    pub(crate) chunk: usize,
    pub(crate) at: usize,
}

/// Chunks from one to another, which isn't among them.
#[derive(Clone, Copy)]
pub(crate) struct Span {
    pub(crate) low: usize,
    pub(crate) high: usize,
}
