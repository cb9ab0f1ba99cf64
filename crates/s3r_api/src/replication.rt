//! How far a version's replication is, in a word.

ghost use Rattle.std.specs.Prelude.{◌≡◌, option_map};
ghost use Rattle.s3r_api.specs.Replication.{status_word};

use s3r_names::Status;

/// The word of a status. A version of which nothing was to be copied has none.
pub fn status_word(status: Status) -> Option<&'static str>
    ensures { option_map (λ word. word.now) result ≡ status_word status }
{
    match status {
        Status::NoTask => None,
        Status::Pending => Some("PENDING"),
        Status::Completed => Some("COMPLETED"),
        Status::Failed => Some("FAILED"),
        Status::Replica => Some("REPLICA"),
    }
}
