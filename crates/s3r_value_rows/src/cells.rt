//! The cells of a row.

use crate::escape::bytes_of;
use std::alloc::{AllocError, Global};
use std::str;

/// What a row says behind its word.
#[derive(Drop)]
pub struct Cells {
    cells: Vec<Vec<u8>>,
}

impl Cells {
    /// The cells of a text in which `|` parts them. Spaces at their ends don't count.
    pub fn read(alloc: Global, text: &str) -> Result<Cells, AllocError> {
        let mut cells = Vec::new(alloc);
        for cell in text.split('|') {
            cells.push(bytes_of(alloc, cell.trim())?)?;
        }
        Ok(Cells { cells })
    }

    pub fn len(&self) -> usize {
        self.cells.len()
    }

    /// The bytes of a cell, none where it isn't there.
    pub fn bytes(&self, place: usize) -> &[u8] {
        match self.cells.get(place) {
            Some(bytes) => bytes.as_slice(),
            None => &[],
        }
    }

    /// The text of a cell, empty where it is none.
    pub fn text(&self, place: usize) -> &str {
        str::from_utf8(self.bytes(place)).unwrap_or("")
    }

    /// The number that a cell says, 0 where it says none.
    pub fn number(&self, place: usize) -> u32 {
        self.text(place).parse::<u32>().unwrap_or(0)
    }
}
