//! The rows of new versions and markers, and of those that are received.

ghost use Rattle.std.specs.Prelude.{◌≡◌, ◌≤◌, length, IfOk};
ghost use Rattle.s3r_history.specs.Deeds.{version, marker};

use s3r_names::{Bytes, ClassName, Kept, Key, Stamp, TagSet, VersionId};
use s3r_versions::Row;
use std::alloc::{AllocError, Global};

/// The version that is first written under the stamp.
pub(crate) fn new_version(
    stamp: Stamp,
    key: Key,
    tags: TagSet,
    hold: bool,
    class: ClassName,
    body: Kept,
) -> Row<Kept>
    requires { length body ≤ 15582912 }
    ensures { result ≡ version stamp key tags hold class body }
{
    let length = body.as_slice().len() as u32;
    Row {
        key,
        id: VersionId {
            region: stamp.region,
            index: stamp.index,
        },
        n: stamp.n,
        place: stamp.index,
        marker: false,
        body,
        length,
        class,
        tags,
        tags_stamp: stamp,
        hold,
        hold_stamp: stamp,
        origin: None,
    }
}

/// The marker that is written under the stamp.
pub(crate) fn new_marker(alloc: Global, stamp: Stamp, key: Key) -> Result<Row<Kept>, AllocError>
    ensures { IfOk result (λ row. row ≡ marker stamp key) }
{
    let body = Kept::new(alloc, Bytes::from_vec(Vec::new(alloc)))?;
    let class = ClassName::standard(alloc)?;
    let tags = TagSet::none(alloc);
    let mut row = new_version(stamp, key, tags, false, class, body);
    row.marker = true;
    Ok(row)
}
