//! The creation of a job.

use s3r_jobs::JobSpec;
use s3r_names::VersionId;

/// A job as it was created, and the version of its manifest.
#[derive(Drop)]
pub struct Creation {
    /// The index of the command that created it.
    pub id: u64,
    pub spec: JobSpec,
    pub manifest: VersionId,
}
