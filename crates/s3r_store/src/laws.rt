//! What is true of the bytes of every volume.
ghost use Rattle.s3r_store.specs.Laws.{OneLawfulHistory};

/// No bytes stand for two lawful histories.
pub fn one_lawful_history()
    ensures { OneLawfulHistory }
{}
