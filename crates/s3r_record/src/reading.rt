//! What is left to read of a spelling.

ghost use Rattle.std.specs.Prelude.{◌≡◌, ◌≤◌, length};

use crate::fault::RecordFault;

/// What is left to read of a spelling of `whole` bytes.
#[derive(Clone, Copy)]
pub(crate) struct Rest<'a> {
    pub(crate) whole: usize,
    pub(crate) bytes: &'a [u8],
    ghost within: { length bytes.now ≤ whole },
}

impl<'a> Rest<'a> {
    ghost use Rattle.s3r_record.specs.Reading.{place, unread};

    /// The fault of a field that begins here.
    pub(crate) fn fault(self) -> RecordFault
        ensures { result ≡ RecordFault.NotACommand (place (unread self.entry)) }
    {
        RecordFault::NotACommand((self.whole - self.bytes.len()) as u64)
    }

    pub(crate) fn with(self, bytes: &'a [u8]) -> Rest<'a>
        requires { length bytes.now ≤ length self.bytes.now }
        ensures { unread result ≡ record { whole = self.entry.whole; bytes = bytes.now } }
    {
        Rest {
            whole: self.whole,
            bytes,
        }
    }
}
