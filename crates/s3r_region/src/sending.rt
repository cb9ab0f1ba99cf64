//! What a command sends, by the bucket that it is about.

ghost use Rattle.std.specs.Prelude.{◌≡◌, IfOk};
ghost use Rattle.s3r_region.specs.After.{seen};
ghost use Rattle.s3r_region.specs.Written as asked;
ghost use Rattle.s3r_region.specs.Prescribing.{sends_by_config, sends_at, sends_of_tags, sends_of_hold};

use crate::State;
use crate::prescribing::{Written, sends_of};
use s3r_history::{Replication, Sent};
use s3r_names::{BucketName, Key, Stamp, TagSet, VersionId};
use std::alloc::{AllocError, Global};

impl State {
    /// What a write of a row of the bucket sends by this configuration.
    fn sends_by(
        &self,
        alloc: Global,
        bucket: &BucketName,
        config: &Option<Replication>,
        written: &Written<'_>,
    ) -> Result<Vec<Sent>, AllocError>
        ensures { IfOk result (λ sends. sends.items ≡ sends_by_config self.now.outbox bucket.now (asked.seen written.now) config.now) }
    {
        match config {
            Some(config) => sends_of(alloc, self.outbox(), bucket, config, written),
            None => Ok(Vec::new(alloc)),
        }
    }

    /// What a new version or marker of the bucket sends.
    pub(crate) fn sends_of_row(
        &self,
        alloc: Global,
        bucket: &BucketName,
        written: &Written<'_>,
    ) -> Result<Vec<Sent>, AllocError>
        ensures { IfOk result (λ sends. sends.items ≡ sends_at self.now.outbox bucket.now (asked.seen written.now) (seen self.now bucket.now)) }
    {
        match self.bucket(bucket) {
            Some(at) => self.sends_by(alloc, bucket, &at.config, written),
            None => Ok(Vec::new(alloc)),
        }
    }

    /// What new tags of a version of the bucket send, where it is there.
    pub(crate) fn sends_of_tags(
        &self,
        alloc: Global,
        bucket: &BucketName,
        key: &Key,
        id: VersionId,
        tags: &TagSet,
        stamp: Stamp,
    ) -> Result<Vec<Sent>, AllocError>
        ensures { IfOk result (λ sends. sends.items ≡ sends_of_tags self.now.outbox bucket.now key.now id tags.now stamp (seen self.now bucket.now)) }
    {
        let Some(at) = self.bucket(bucket) else {
            return Ok(Vec::new(alloc));
        };
        match at.rows.find(key, id) {
            Some(row) => {
                self.sends_by(alloc, bucket, &at.config, &Written::Tags(row, tags, stamp))
            }
            None => Ok(Vec::new(alloc)),
        }
    }

    /// What a new hold of a version of the bucket sends, where it is there.
    pub(crate) fn sends_of_hold(
        &self,
        alloc: Global,
        bucket: &BucketName,
        key: &Key,
        id: VersionId,
        hold: bool,
        stamp: Stamp,
    ) -> Result<Vec<Sent>, AllocError>
        ensures { IfOk result (λ sends. sends.items ≡ sends_of_hold self.now.outbox bucket.now key.now id hold stamp (seen self.now bucket.now)) }
    {
        let Some(at) = self.bucket(bucket) else {
            return Ok(Vec::new(alloc));
        };
        match at.rows.find(key, id) {
            Some(row) => {
                self.sends_by(alloc, bucket, &at.config, &Written::Hold(row, hold, stamp))
            }
            None => Ok(Vec::new(alloc)),
        }
    }
}
