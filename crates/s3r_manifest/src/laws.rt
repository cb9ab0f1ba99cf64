//! What is true of manifests.
ghost use Rattle.s3r_manifest.specs.Laws.{OneReading};

/// Each text is read in exactly one way: as the lines of all its records, or refused for its length, for the first record
/// that is wrong, or for the number of its records.
pub fn one_reading()
    ensures { OneReading }
{}
