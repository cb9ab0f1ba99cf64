//! The words that rows of the table have.

ghost use Rattle.std.specs.Prelude.{◌≡◌};
ghost use Rattle.s3r_routes.specs.Words.{word_text};

/// A word of a query that some row has.
#[derive(Clone, Copy, Debug, PartialEq, Eq)]
pub enum Word {
    Versioning,
    Replication,
    Versions,
    Tagging,
    LegalHold,
    VersionId,
    Prefix,
    KeyMarker,
    VersionIdMarker,
    MaxKeys,
    Priority,
    RequestedJobStatus,
    From,
    To,
    Region,
    Rounds,
}

impl Word {
    ghost use Rattle.std.specs.Prelude.{◌≡◌};
    ghost use Rattle.s3r_routes.specs.Words.{word_text};

    /// As it is written, with regard to case.
    pub fn as_str(self) -> &'static str
        ensures { result.now ≡ word_text self }
    {
        match self {
            Word::Versioning => "versioning",
            Word::Replication => "replication",
            Word::Versions => "versions",
            Word::Tagging => "tagging",
            Word::LegalHold => "legal-hold",
            Word::VersionId => "versionId",
            Word::Prefix => "prefix",
            Word::KeyMarker => "key-marker",
            Word::VersionIdMarker => "version-id-marker",
            Word::MaxKeys => "max-keys",
            Word::Priority => "priority",
            Word::RequestedJobStatus => "requestedJobStatus",
            Word::From => "from",
            Word::To => "to",
            Word::Region => "region",
            Word::Rounds => "rounds",
        }
    }
}
