//! The test that bytes are a bucket's name.

ghost use Rattle.std.specs.Prelude.{◌≡◌, length};
ghost use Rattle.std.specs.List.{list_all};
ghost use Rattle.s3r_names.specs.Bucket.{is_bucket_name, is_digit, is_letter_or_digit, is_name_byte, is_number, is_address, has_name_length, has_name_ends, has_adjacent_dots, is_reserved, groups};

/// The one name of the right form that no bucket has.
const RESERVED: &[u8] = b"v20180820";

fn is_digit(byte: u8) -> bool
    ensures { result ≡ is_digit byte }
{
    matches!(byte, b'0'..=b'9')
}

fn is_letter_or_digit(byte: u8) -> bool
    ensures { result ≡ is_letter_or_digit byte }
{
    matches!(byte, b'a'..=b'z' | b'0'..=b'9')
}

fn is_name_byte(byte: u8) -> bool
    ensures { result ≡ is_name_byte byte }
{
    is_letter_or_digit(byte) || byte == b'.' || byte == b'-'
}

fn has_name_length(bytes: &[u8]) -> bool
    ensures { result ≡ has_name_length bytes.now }
{
    3 <= bytes.len() && bytes.len() <= 63
}

fn has_name_bytes(bytes: &[u8]) -> bool
    ensures { result ≡ list_all is_name_byte bytes.now }
{
    bytes.iter().all(|byte| is_name_byte(*byte))
}

/// Whether both ends are letters or digits.
fn has_name_ends(bytes: &[u8]) -> bool
    ensures { result ≡ has_name_ends bytes.now }
{
    match bytes {
        [] => false,
        [only] => is_letter_or_digit(*only),
        [first, .., last] => is_letter_or_digit(*first) && is_letter_or_digit(*last),
    }
}

fn has_adjacent_dots(bytes: &[u8]) -> bool
    ensures { result ≡ has_adjacent_dots bytes.now }
{
    bytes
        .iter()
        .zip(bytes.iter().skip(1))
        .any(|(byte, next)| *byte == b'.' && *next == b'.')
}

fn has_digits(group: &[u8]) -> bool
    ensures { result ≡ list_all is_digit group.now }
{
    group.iter().all(|byte| is_digit(*byte))
}

/// Whether the group is a number of one to three digits.
fn is_number(group: &[u8]) -> bool
    ensures { result ≡ is_number group.now }
{
    1 <= group.len() && group.len() <= 3 && has_digits(group)
}

fn group_count(bytes: &[u8]) -> usize
    ensures { result ≡ length (groups bytes.now) }
{
    bytes.split(|byte| *byte == b'.').count()
}

fn has_number_groups(bytes: &[u8]) -> bool
    ensures { result ≡ list_all is_number (groups bytes.now) }
{
    bytes
        .split(|byte| *byte == b'.')
        .all(|group| is_number(group))
}

/// Whether the bytes have the form of an address, as 192.168.5.4.
fn is_address(bytes: &[u8]) -> bool
    ensures { result ≡ is_address bytes.now }
{
    group_count(bytes) == 4 && has_number_groups(bytes)
}

fn is_reserved(bytes: &[u8]) -> bool
    ensures { result ≡ is_reserved bytes.now }
{
    bytes == RESERVED
}

pub(crate) fn is_bucket_name(bytes: &[u8]) -> bool
    ensures { result ≡ is_bucket_name bytes.now }
{
    if !has_name_length(bytes) || !has_name_bytes(bytes) || !has_name_ends(bytes) {
        return false;
    }
    !has_adjacent_dots(bytes) && !is_address(bytes) && !is_reserved(bytes)
}
