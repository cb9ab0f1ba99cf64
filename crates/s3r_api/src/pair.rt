//! Which regions the words of a copy name.

ghost use Rattle.std.specs.Prelude.{◌≡◌};
ghost use Rattle.s3r_api.specs.Request.{copy_request};

use crate::numbers::number_asked;
use crate::problem::Problem;
use s3r_desk::Request;
use s3r_routes::{Query, Word};

/// A turn of the copier from one region to another. The sender is looked at first. Whether there are such regions is the
/// desk's question.
pub fn copy_request(words: &Query) -> Result<Request, Problem>
    ensures { result ≡ copy_request words.now }
{
    let from = number_asked(words, Word::From, u32::MAX)?;
    let to = number_asked(words, Word::To, u32::MAX)?;
    Ok(Request::Copy { from, to })
}
