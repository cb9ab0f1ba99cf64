//! When too many lines failed.

ghost use Rattle.std.specs.Prelude.{◌≡◌};
ghost use Rattle.s3r_jobs.specs.Threshold.{threshold};

/// As many results are looked at before a job fails by them (Amazon S3 User Guide, "Tracking job failure").
const LEAST_RESULTS: u64 = 1000;

/// Whether more than half of at least 1,000 results are failures.
pub fn threshold(results: u64, failed: u64) -> bool
    ensures { result ≡ threshold results failed }
{
    results >= LEAST_RESULTS && failed > results / 2
}
