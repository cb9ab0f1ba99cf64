//! Ids of versions and stamps, read from the front of what is left.

ghost use Rattle.s3r_record.specs.Reading.{Gives, unread};
ghost use Rattle.s3r_record.specs.ReadingIds.{region_at, index_at, id_at, stamp_at};

use crate::fault::RecordFault;
use crate::fields::{byte_of, u64_of};
use crate::reading::Rest;
use s3r_names::{Stamp, VersionId};

/// The last region's number.
const LAST_REGION: u8 = 7;

#[tactic(auto, unfolding(crate::specs::ReadingIds::region_at))]
pub(crate) fn region_of(left: Rest<'_>) -> Result<(u8, Rest<'_>), RecordFault>
    ensures { Gives (λ x. (x.0, unread x.1)) result (region_at (unread left.entry)) }
{
    byte_of(LAST_REGION, left)
}

#[tactic(auto, unfolding(crate::specs::ReadingIds::index_at))]
pub(crate) fn index_of(left: Rest<'_>) -> Result<(u64, Rest<'_>), RecordFault>
    ensures { Gives (λ x. (x.0, unread x.1)) result (index_at (unread left.entry)) }
{
    let (index, rest) = u64_of(left)?;
    if index == 0 {
        return Err(left.fault());
    }
    Ok((index, rest))
}

#[tactic(auto, unfolding(crate::specs::ReadingIds::id_at))]
pub(crate) fn id_of(left: Rest<'_>) -> Result<(VersionId, Rest<'_>), RecordFault>
    ensures { Gives (λ x. (x.0, unread x.1)) result (id_at (unread left.entry)) }
{
    let (region, rest) = region_of(left)?;
    let (index, rest) = index_of(rest)?;
    Ok((VersionId { region, index }, rest))
}

#[tactic(auto, unfolding(crate::specs::ReadingIds::stamp_at))]
pub(crate) fn stamp_of(left: Rest<'_>) -> Result<(Stamp, Rest<'_>), RecordFault>
    ensures { Gives (λ x. (x.0, unread x.1)) result (stamp_at (unread left.entry)) }
{
    let (n, rest) = u64_of(left)?;
    let (region, rest) = region_of(rest)?;
    let (index, rest) = index_of(rest)?;
    Ok((Stamp { n, region, index }, rest))
}
