//! Numbers of a query.

ghost use Rattle.std.specs.Prelude.{◌≡◌};
ghost use Rattle.std.specs.List.{list_all};
ghost use Rattle.s3r_names.specs.Bucket.{is_digit};
ghost use Rattle.s3r_routes.specs.Numbers.{is_decimal, number_named};

fn is_digit(byte: u8) -> bool
    ensures { result ≡ is_digit byte }
{
    matches!(byte, b'0'..=b'9')
}

fn has_digits(text: &[u8]) -> bool
    ensures { result ≡ list_all is_digit text.now }
{
    text.iter().all(|byte| is_digit(*byte))
}

/// Decimal digits, without a sign or a leading zero.
fn is_decimal(text: &[u8]) -> bool
    ensures { result ≡ is_decimal text.now }
{
    match text {
        [] => false,
        [b'0', _, ..] => false,
        [_, ..] => has_digits(text),
    }
}

/// The number that the text spells, if it is one up to `most`.
pub fn number_named(text: &str, most: u32) -> Option<u32>
    ensures { result ≡ number_named most text.now }
{
    if !is_decimal(text.as_bytes()) {
        return None;
    }
    match text.parse::<u32>() {
        Ok(number) => (number <= most).then_some(number),
        Err(_) => None,
    }
}
