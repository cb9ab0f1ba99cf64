//! The first byte of an effect's spelling.

pub(crate) const REPLICA: u8 = 1;

pub(crate) const MARKER: u8 = 2;

pub(crate) const TAGS: u8 = 3;

pub(crate) const HOLD: u8 = 4;
