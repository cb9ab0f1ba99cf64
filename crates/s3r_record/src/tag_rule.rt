//! What tags are looked at for while they are read.

/// Which tags may stand.
#[derive(Clone, Copy)]
pub(crate) enum TagRule {
    /// Those of a set.
    Lawful,
    /// Any texts whose keys rise.
    Any,
}
