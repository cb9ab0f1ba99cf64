//! A step of a script: words that spaces part.

ghost use Rattle.std.specs.Prelude.{◌<◌};

use crate::fault::Fault;
use s3r_names::{Key, Stamp, VersionId};
use s3r_versions::ListPosition;
use std::alloc::Global;

/// A step by its text.
#[derive(Clone, Copy)]
pub struct Step<'a> {
    text: &'a str,
}

/// An id that is written as `REGION-INDEX`.
fn id_in(text: &str) -> VersionId {
    let (region, index) = text.split_once('-').unwrap_or(("", ""));
    VersionId {
        region: region.parse::<u8>().unwrap_or(0),
        index: index.parse::<u64>().unwrap_or(0),
    }
}

impl<'a> Step<'a> {
    pub fn new(text: &'a str) -> Step<'a> {
        Step { text }
    }

    /// A word, empty where it isn't there.
    pub fn word(&self, place: usize) -> &'a str {
        self.text.split(' ').nth(place).unwrap_or("")
    }

    /// The key that each step about a key has first.
    pub fn key(&self, alloc: Global) -> Result<Key, Fault> {
        Ok(Key::read(alloc, self.word(1).as_bytes())?)
    }

    /// The id that a word says.
    pub fn id(&self, place: usize) -> VersionId {
        id_in(self.word(place))
    }

    /// None where the word is `-`.
    pub fn optional_id(&self, place: usize) -> Option<VersionId> {
        match self.word(place) {
            "-" => None,
            word => Some(id_in(word)),
        }
    }

    /// The number that a word says, 0 where it says none.
    pub fn number(&self, place: usize) -> u64 {
        self.word(place).parse::<u64>().unwrap_or(0)
    }

    /// The stamp of a number and an id.
    pub fn stamp(&self, place: usize) -> Stamp
        requires { place < 100 }
    {
        let id = self.id(place + 1);
        Stamp {
            n: self.number(place),
            region: id.region,
            index: id.index,
        }
    }

    /// The place behind a key, or behind its version where an id follows. None where the key isn't there.
    pub fn place(&self, alloc: Global, place: usize) -> Result<Option<ListPosition>, Fault>
        requires { place < 100 }
    {
        let key = self.word(place);
        if key.is_empty() {
            return Ok(None);
        }
        let id = self.optional_id(place + 1);
        let key = Key::read(alloc, key.as_bytes())?;
        Ok(Some(ListPosition { key, id }))
    }
}
