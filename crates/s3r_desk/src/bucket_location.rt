//! A bucket and its region.
ghost use Rattle.std.specs.Prelude.{IsTrue};
ghost use Rattle.s3r_region.specs.Contents.{have_ids};

use s3r_region::Bucket;

/// The region that has a bucket, and the bucket.
#[derive(Clone, Copy)]
pub struct BucketLocation<'a> {
    pub region: usize,
    pub bucket: &'a Bucket,
    // The ids of its versions meet their rule.
    ghost ids: { IsTrue (have_ids bucket.now.rows.rows) },
}
