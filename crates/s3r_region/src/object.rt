//! What commands about versions do to a state.

ghost use Rattle.std.specs.Prelude.{◌≡◌, ◌+◌, ◌<◌, ◌≤◌, ◌^◌, IfOk, OnOk, [], length};
ghost use Rattle.s3r_record.specs.declared.command.Command.{Command};
ghost use Rattle.s3r_history.specs.Deeds.{version};
ghost use Rattle.s3r_region.specs.Applies.{Applies};

use crate::State;
use crate::change::Change;
use crate::prescribing::Written;
use crate::version::{new_marker, new_version};
use s3r_names::{BucketName, Bytes, ClassName, Kept, Key, Stamp, TagSet, VersionId};
use s3r_versions::Row;
use std::alloc::{AllocError, Global};

/// A version whose body is stored now.
pub(crate) fn stored(
    alloc: Global,
    stamp: Stamp,
    key: Key,
    tags: TagSet,
    hold: bool,
    class: ClassName,
    body: Bytes,
) -> Result<Row<Kept>, AllocError>
    requires { length body ≤ 15582912 }
    ensures { IfOk result (λ row. row ≡ version stamp key tags hold class body) }
{
    let body = Kept::new(alloc, body)?;
    Ok(new_version(stamp, key, tags, hold, class, body))
}

impl State {
    /// A version is written. After an error the state is given up.
    pub(crate) fn put(
        &mut self,
        alloc: Global,
        bucket: &BucketName,
        key: Key,
        tags: TagSet,
        hold: bool,
        class: ClassName,
        body: Bytes,
    ) -> Result<(), AllocError>
        requires few { self.old.commands + 1 < 2 ^ 64 }
        requires short { length body ≤ 4194304 }
        ensures { OnOk result (Applies (Command.Put bucket.now key tags hold class body) self.old self.new) }
    {
        let stamp = self.next_stamp();
        let row = stored(alloc, stamp, key, tags, hold, class, body)?;
        let sends = self.sends_of_row(alloc, bucket, &Written::Version(&row))?;
        self.change(bucket, Change::Add(row), stamp.n, sends)
    }

    /// A marker is written.
    pub(crate) fn mark(
        &mut self,
        alloc: Global,
        bucket: &BucketName,
        key: Key,
    ) -> Result<(), AllocError>
        requires { self.old.commands + 1 < 2 ^ 64 }
        ensures { OnOk result (Applies (Command.Marker bucket.now key) self.old self.new) }
    {
        let stamp = self.next_stamp();
        let row = new_marker(alloc, stamp, key)?;
        let sends = self.sends_of_row(alloc, bucket, &Written::Marker(&row))?;
        self.change(bucket, Change::Add(row), stamp.n, sends)
    }

    /// A version is removed.
    pub(crate) fn remove(
        &mut self,
        alloc: Global,
        bucket: &BucketName,
        key: Key,
        id: VersionId,
    ) -> Result<(), AllocError>
        requires { self.old.commands + 1 < 2 ^ 64 }
        ensures { OnOk result (Applies (Command.Remove bucket.now key id) self.old self.new) }
    {
        let n = self.clock();
        self.change(bucket, Change::Remove { key, id }, n, Vec::new(alloc))
    }
}
