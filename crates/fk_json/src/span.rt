use crate::ListOf;

/// Where a part of a text begins, and where it has ended, in bytes from the text's start.
#[derive(Clone, Copy, PartialEq, Eq)]
pub struct Span {
    pub from: usize,
    pub to: usize,
}

/// A list of spans.
pub type Spans = ListOf<Span>;
