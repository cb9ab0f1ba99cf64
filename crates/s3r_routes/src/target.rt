//! What the target of a request names.

ghost use Rattle.std.specs.Prelude.{◌≡◌, ◌<◌, ◌==◌, length, position, IfSome};
ghost use Rattle.std.specs.Option.{option_copied};
ghost use Rattle.std.specs.Str.{bytes_eq};
ghost use Rattle.s3r_routes.specs.Target.{cut, path_of, query_of};

/// What a path names.
#[derive(Clone, Copy)]
pub enum Target<'a> {
    /// The bytes of a bucket's name.
    Bucket(&'a [u8]),
    /// The bytes of a bucket's name, and a key as it was written.
    Object(&'a [u8], &'a [u8]),
    Jobs,
    /// A job by its id.
    Job(&'a [u8]),
    JobPriority(&'a [u8]),
    JobStatus(&'a [u8]),
    Copy,
    JobTurn,
    Work,
    Check,
}

fn first_place(bytes: &[u8], byte: u8) -> Option<usize>
    ensures at { result ≡ position (λ b. b == byte) bytes.now }
    ensures within { IfSome result (λ place. place < length bytes.now) }
{
    bytes.iter().position(|b| *b == byte)
}

/// What stands before the first such byte, and what behind it.
pub(crate) fn cut(bytes: &[u8], byte: u8) -> (&[u8], Option<&[u8]>)
    ensures { (result.0.now, option_copied result.1) ≡ cut byte bytes.now }
{
    match first_place(bytes, byte) {
        Some(place) => (&bytes[..place], Some(&bytes[place + 1..])),
        None => (bytes, None),
    }
}

/// Up to the first `?`.
pub fn path_of(target: &str) -> &str
    ensures { result.now ≡ path_of target.now }
{
    match target.split_once('?') {
        Some((path, _)) => path,
        None => target,
    }
}

/// Behind the first `?`.
pub(crate) fn query_of(target: &[u8]) -> &[u8]
    ensures { result.now ≡ query_of target.now }
{
    match cut(target, b'?').1 {
        Some(query) => query,
        None => &[],
    }
}

pub(crate) fn is_text(bytes: &[u8], text: &str) -> bool
    ensures { result ≡ bytes_eq bytes.now text.now }
{
    bytes == text.as_bytes()
}
