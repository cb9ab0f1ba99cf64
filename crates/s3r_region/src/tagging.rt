//! What new tags do to a state.

ghost use Rattle.std.specs.Prelude.{◌≡◌, ◌+◌, ◌<◌, ◌≤◌, ◌^◌, OnOk};
ghost use Rattle.s3r_record.specs.declared.command.Command.{Command};
ghost use Rattle.s3r_region.specs.Applies.{Applies};
ghost use Rattle.s3r_region.specs.Changes.{next_stamp};
ghost use Rattle.s3r_region.specs.Writing.{tagged};

use crate::State;
use crate::change::Change;
use s3r_names::{BucketName, Key, TagSet, VersionId};
use std::alloc::{AllocError, Global};

impl State {
    /// A version's tags are written. After an error the state is given up.
    pub(crate) fn set_tags(
        &mut self,
        alloc: Global,
        bucket: &BucketName,
        key: Key,
        id: VersionId,
        tags: TagSet,
    ) -> Result<(), AllocError>
        requires { self.old.commands + 1 < 2 ^ 64 }
        ensures applied { OnOk result (Applies (Command.SetTags bucket.now key id tags) self.old self.new) }
        ensures exact { OnOk result (self.new ≡ tagged self.old bucket.now key id tags) }
        ensures above { self.old.clock ≤ (next_stamp self.old).n }
    {
        let stamp = self.next_stamp();
        let sends = self.sends_of_tags(alloc, bucket, &key, id, &tags, stamp)?;
        let change = Change::Tags {
            key,
            id,
            tags,
            stamp,
        };
        self.change(bucket, change, stamp.n, sends)
    }
}
