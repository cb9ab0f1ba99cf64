//! Numbers that words of a query say.

ghost use Rattle.std.specs.Prelude.{◌≡◌};
ghost use Rattle.s3r_api.specs.Numbers.{number_asked};

use crate::problem::Problem;
use s3r_routes::{Query, Word, number_named};

/// The number at a word. InvalidQuery where the word is missing, or says none up to `most` in decimal digits.
pub fn number_asked(words: &Query, word: Word, most: u32) -> Result<u32, Problem>
    ensures { result ≡ number_asked most word words.now }
{
    let Some(text) = words.value(word) else {
        return Err(Problem::InvalidQuery);
    };
    match number_named(text, most) {
        Some(number) => Ok(number),
        None => Err(Problem::InvalidQuery),
    }
}
