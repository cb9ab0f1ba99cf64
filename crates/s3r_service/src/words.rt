// The words that the program is started with, without its name.
ghost use Rattle.std.specs.Prelude.{◌≡◌, map, string_bytes, IfOk};
ghost use Rattle.std.specs.Option.{option_map};
ghost use Rattle.s3r_service.specs.Words.{regions_in, words_seen, place_seen, words_in, place_in};

use std::alloc::{AllocError, Global};

/// What the words say: the folder, and how many regions there are.
#[derive(Clone, Copy, Debug)]
pub struct Words<'a> {
    pub folder: &'a str,
    pub regions: u32,
}

/// Where the program works. It listens on a port of this machine where there is one.
#[derive(Debug, Drop)]
pub struct Place {
    pub folder: String,
    pub regions: u32,
    pub port: Option<u16>,
}

// One digit from 1 to 8.
fn regions_in(word: &[u8]) -> Option<u32>
    ensures { result ≡ regions_in word.now }
{
    let [digit] = word else {
        return None;
    };
    if *digit > b'0' && *digit < b'9' {
        Some(u32::from(*digit - b'0'))
    } else {
        None
    }
}

/// `FOLDER REGIONS do`, and nothing else so far.
pub fn read_words(words: &[String]) -> Option<Words<'_>>
    ensures { option_map words_seen result ≡ words_in (map string_bytes words.now) }
{
    let [folder, regions, task] = words else {
        return None;
    };
    if task.as_str() != "do" {
        return None;
    }
    let regions = regions_in(regions.as_bytes())?;
    Some(Words {
        folder: folder.as_str(),
        regions,
    })
}

/// The place that the words name. None exactly where they aren't words of the program.
pub fn place_of(alloc: Global, words: &[String]) -> Result<Option<Place>, AllocError>
    ensures { IfOk result (λ place. option_map place_seen place ≡ place_in (map string_bytes words.now)) }
{
    let Some(words) = read_words(words) else {
        return Ok(None);
    };
    Ok(Some(Place {
        folder: String::from_str(alloc, words.folder)?,
        regions: words.regions,
        port: None,
    }))
}
