//! Version ids.

ghost use Rattle.std.specs.Prelude.{◌≡◌, ◌<◌, ◌^◌, ℕ, List, Some, length, take, IfSome};
ghost use Rattle.s3r_names.specs.Version.{hex_digit, hex_digits, hex_value};

/// Which version: the region and index of the command that wrote it first.
#[derive(Clone, Copy, Debug, PartialEq, Eq)]
pub struct VersionId {
    pub region: u8,
    pub index: u64,
}

impl VersionId {
    ghost use Rattle.s3r_names.specs.Version.{IsVersionId, version_text};
    ghost use Rattle.s3r_names.specs.declared.version.VersionId.{VersionId};

    /// The id that the bytes spell.
    pub fn read(bytes: &[u8]) -> Option<VersionId>
        ensures found { IfSome result (λ id. IsVersionId id × (bytes.now ≡ version_text id)) }
        ensures only { (id : VersionId) → IsVersionId id → bytes.now ≡ version_text id → result ≡ Some id }
    {
        match bytes {
            [region, b'-', digits @ ..] => {
                if *region < b'0' || b'7' < *region {
                    return None;
                }
                let index = hex_number(digits)?;
                if index == 0 {
                    return None;
                }
                Some(VersionId {
                    region: *region - b'0',
                    index,
                })
            }
            _ => None,
        }
    }

    /// The bytes that `read` takes for this id.
    pub fn print(&self, into: &mut [u8; 18])
        requires { IsVersionId self.now }
        ensures { into.new ≡ version_text self.now }
    {
        into[0] = self.region + b'0';
        into[1] = b'-';
        let mut left = self.index;
        for done in 0..16usize {
            into[17 - done] = hex_digit((left % 16) as u8);
            left /= 16;
        }
    }
}

fn hex_digit(value: u8) -> u8
    requires { value < 16 }
    ensures { result ≡ hex_digit value }
{
    if value < 10 {
        value + b'0'
    } else {
        value - 10 + b'a'
    }
}

fn hex_value(byte: u8) -> Option<u8>
    ensures { result ≡ hex_value byte }
{
    match byte {
        b'0'..=b'9' => Some(byte - b'0'),
        b'a'..=b'f' => Some(byte - b'a' + 10),
        _ => None,
    }
}

/// The number that sixteen digits spell.
fn hex_number(digits: &[u8]) -> Option<u64>
    ensures found { IfSome result (λ n. (n < 2 ^ 64) × (digits.now ≡ hex_digits 16 n)) }
    ensures only { (n : ℕ) → n < 2 ^ 64 → digits.now ≡ hex_digits 16 n → result ≡ Some n }
{
    if digits.len() != 16 {
        return None;
    }
    let mut number: u64 = 0;
    for byte in digits {
        number = number * 16 + u64::from(hex_value(*byte)?);
    }
    Some(number)
}
