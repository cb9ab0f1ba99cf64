//! Lines that were begun.

/// A line that was begun. It can't be dropped: `finish_line` or `keep_line` spends it, so none is forgotten.
pub struct LineToken {
    pub(crate) job: u64,
    /// Counted from 1.
    pub(crate) line: u32,
}

/// Whether a line was begun that has no result yet.
#[derive(Clone, Copy)]
pub enum LineTurn {
    /// No line was.
    Free,
    /// One was, and its token is out.
    Begun,
    /// One was, and the job keeps its token.
    Kept,
}
