//! A request as it was framed.
ghost use Rattle.std.specs.Prelude.{◌≡◌};

use crate::buffer::ReadFault;
use http::Method;
use s3r_names::{Bytes, Text};
use std::alloc::AllocError;
use std::marker::Model;

/// A header line: its name as it was written, and its value without the white space around it.
#[derive(Debug, Drop)]
pub struct Field {
    pub name: Text,
    pub value: Bytes,
}

/// Header lines in order, seen as their list.
#[derive(Debug, Drop)]
pub struct Fields {
    lines: Vec<Field>,
}

impl Model for Fields {
    ghost use Rattle.std.specs.Prelude.{List};
    ghost use Rattle.s3r_http.specs.declared.message.Field.{Field};

    ghost Value = { List Field };

    ghost view = { λ fields. fields.lines.items };
}

impl Fields {
    pub fn from_vec(lines: Vec<Field>) -> Fields
        ensures { result ≡ lines.items }
    {
        Fields { lines }
    }

    pub fn as_slice(&self) -> &[Field]
        ensures { result.now ≡ self.now }
    {
        self.lines.as_slice()
    }
}

/// A request, framed and not looked at further.
#[derive(Debug, Drop)]
pub struct RawRequest {
    pub method: Method,
    pub target: Text,
    pub fields: Fields,
    pub body: Bytes,
    /// No request follows on its connection.
    pub last: bool,
}

/// Why no request was read. The connection isn't read on after it.
#[derive(Clone, Copy, Debug, PartialEq, Eq)]
pub enum HttpFault {
    /// The head isn't, as a whole, a request head with at most 64 header lines (RFC 9112, section 2.1).
    BadHead,
    /// 16,384 bytes are there, and none of them ends a head.
    HeadTooLong,
    /// A Content-Length is no number, or two differ (RFC 9112, section 6.3).
    BadLength,
    /// The body is longer than 4,194,304 bytes.
    EntityTooLarge,
    /// There is a Transfer-Encoding.
    NotImplemented,
    /// The input ends inside a head or a body.
    CutShort,
    /// The input failed.
    Input,
    OutOfMemory,
}

impl From<ReadFault> for HttpFault {
    ghost use Rattle.s3r_http.specs.Faults.{fault_of_read};

    ghost from_gives = { λ fault e. e ≡ fault_of_read fault };

    fn from(fault: ReadFault) -> Self {
        match fault {
            ReadFault::Input => HttpFault::Input,
            ReadFault::OutOfMemory => HttpFault::OutOfMemory,
        }
    }
}

impl From<AllocError> for HttpFault {
    ghost use Rattle.s3r_http.specs.declared.message.HttpFault.TheVariants.{OutOfMemory};

    ghost from_gives = { λ _ e. e ≡ OutOfMemory };

    fn from(_: AllocError) -> Self {
        HttpFault::OutOfMemory
    }
}
