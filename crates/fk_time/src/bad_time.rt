use std::error::Error;
use std::fmt;

/// A text is not in the form in which moments are read.
#[derive(Clone, Copy, Debug, PartialEq, Eq)]
pub struct BadTime;

impl fmt::Display for BadTime {
    fn fmt<W: fmt::Write>(&self, f: &mut fmt::Formatter<W>) -> fmt::Result {
        f.write_str("not a time in the form of RFC 3339")
    }
}

impl Error for BadTime {}
