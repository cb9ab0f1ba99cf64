//! Rows and their cells.

use s3r_names::NameFault;
use std::alloc::AllocError;
use std::num::ParseIntError;

/// Why a row has no text.
#[derive(Clone, Copy)]
pub enum RowFault {
    /// Its word or a cell isn't one that a row may have.
    NoRow,
    OutOfMemory,
}

impl RowFault {
    pub fn as_str(self) -> &'static str {
        match self {
            RowFault::NoRow => "no row",
            RowFault::OutOfMemory => "out of memory",
        }
    }
}

impl From<AllocError> for RowFault {
    fn from(_: AllocError) -> Self {
        RowFault::OutOfMemory
    }
}

impl From<ParseIntError> for RowFault {
    fn from(_: ParseIntError) -> Self {
        RowFault::NoRow
    }
}

impl From<NameFault> for RowFault {
    fn from(fault: NameFault) -> Self {
        match fault {
            NameFault::OutOfMemory => RowFault::OutOfMemory,
            _ => RowFault::NoRow,
        }
    }
}

/// The first cell, and those behind it. A cell that isn't there is empty.
pub fn first_cell(cells: &str) -> (&str, &str) {
    cells.split_once(" | ").unwrap_or((cells, ""))
}

/// The first word of a cell, and what is behind it.
pub fn first_word(cell: &str) -> (&str, &str) {
    cell.split_once(' ').unwrap_or((cell, ""))
}
