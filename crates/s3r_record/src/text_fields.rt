//! Texts that need not be there, or need not meet a rule, read from the front of what is left.

ghost use Rattle.std.specs.Prelude.{Ok};
ghost use Rattle.std.specs.Int.{w16};
ghost use Rattle.std.specs.Str.{is_utf8};
ghost use Rattle.s3r_record.specs.Reading.{Gives, unread, tested_at};
ghost use Rattle.s3r_record.specs.ReadingTexts.{passed, text_if, option_text_at};

use crate::fault::RecordFault;
use crate::fields::{flag_of, text_of};
use crate::reading::Rest;
use s3r_names::Text;
use std::alloc::Global;
use std::str;

/// The bytes as text, if they are text.
#[tactic(auto, using(crate::proofs::Texts::text_is, crate::proofs::Texts::text_is_not))]
pub(crate) fn text_in(alloc: Global, bytes: &[u8]) -> Result<Option<Text>, RecordFault>
    ensures { Gives (λ text. text) result (Ok (passed is_utf8 bytes.now)) }
{
    match str::from_utf8(bytes) {
        Ok(text) => Ok(Some(Text::from_str(alloc, text)?)),
        Err(_) => Ok(None),
    }
}

#[tactic(auto, unfolding(crate::specs::Reading::tested_at))]
pub(crate) fn any_text_of(alloc: Global, left: Rest<'_>) -> Result<(Text, Rest<'_>), RecordFault>
    ensures { Gives (λ x. (x.0, unread x.1)) result (tested_at w16 is_utf8 (unread left.entry)) }
{
    let (bytes, rest) = text_of(left)?;
    match text_in(alloc, bytes)? {
        Some(text) => Ok((text, rest)),
        None => Err(left.fault()),
    }
}

fn text_if(
    alloc: Global,
    given: bool,
    left: Rest<'_>,
) -> Result<(Option<Text>, Rest<'_>), RecordFault>
    ensures { Gives (λ x. (x.0, unread x.1)) result (text_if given (unread left.entry)) }
{
    if !given {
        return Ok((None, left));
    }
    let (text, rest) = any_text_of(alloc, left)?;
    Ok((Some(text), rest))
}

#[tactic(auto, unfolding(crate::specs::ReadingTexts::option_text_at))]
pub(crate) fn option_text_of(
    alloc: Global,
    left: Rest<'_>,
) -> Result<(Option<Text>, Rest<'_>), RecordFault>
    ensures { Gives (λ x. (x.0, unread x.1)) result (option_text_at (unread left.entry)) }
{
    let (given, rest) = flag_of(left)?;
    text_if(alloc, given, rest)
}
