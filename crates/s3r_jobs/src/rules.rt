//! What may stand in a job's specification.

ghost use Rattle.std.specs.Prelude.{◌≡◌, ◌&&◌, nat_le, length};
ghost use Rattle.std.specs.Str.{chars};
ghost use Rattle.s3r_jobs.specs.Rules.{is_token};

/// The most characters of a token.
const LONGEST_TOKEN: usize = 64;

/// The greatest priority of a job.
pub const MOST_PRIORITY: u32 = 2_147_483_647;

/// The most bytes of a copy's prefix (Amazon S3 User Guide, "Creating object key names").
pub const LONGEST_TARGET_PREFIX: usize = 1_024;

/// The most bytes of a report's prefix.
pub const LONGEST_REPORT_PREFIX: usize = 512;

fn char_count(text: &str) -> usize
    ensures { result ≡ length (chars text.now) }
{
    text.chars().count()
}

fn has_token_length(count: usize) -> bool
    ensures { result ≡ (nat_le 1 count && nat_le count 64) }
{
    1 <= count && count <= LONGEST_TOKEN
}

/// Whether the text tells a request that is sent again: it has 1 to 64 characters.
pub fn is_token(text: &str) -> bool
    ensures { result ≡ is_token text.now }
{
    has_token_length(char_count(text))
}
