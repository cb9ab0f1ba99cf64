//! ARNs of buckets and objects.

ghost use Rattle.std.specs.Prelude.{◌≡◌, ◌<◌, ◌==◌, ◌&&◌, ◌↔◌, ◌⊎◌, IsTrue, IfOk, OnOk, IfErr, IfSome, IsErrOf, Some, None, length, position, string_bytes};
ghost use Rattle.s3r_names.specs.Bucket.{is_bucket_name};
ghost use Rattle.s3r_names.specs.Key.{is_key};
ghost use Rattle.s3r_names.specs.Arn.{named_by, arn_of, arn_text, bucket_arn, object_arn};

use crate::bucket_rule::is_bucket_name;
use crate::key::is_key;
use crate::{BucketName, Key, NameFault};
use std::alloc::{AllocError, Global};

const PREFIX: &str = "arn:aws:s3:::";

/// What an ARN names.
#[derive(Debug, Drop)]
pub enum Arn {
    Bucket(BucketName),
    Object(BucketName, Key),
}

impl Arn {
    /// What the text names.
    pub fn read(alloc: Global, text: &str) -> Result<Arn, NameFault>
        ensures ok { IfOk result (λ arn. arn_of text.now ≡ Some arn) }
        ensures refused { IsErrOf result NameFault.InvalidArn ↔ (arn_of text.now ≡ None) }
        ensures faults { IfErr result (λ fault. (fault ≡ NameFault.InvalidArn) ⊎ (fault ≡ NameFault.OutOfMemory)) }
    {
        match text.as_bytes().strip_prefix(PREFIX.as_bytes()) {
            Some(name) => read_name(alloc, name),
            None => Err(NameFault::InvalidArn),
        }
    }

    /// The text that `read` takes for it.
    pub fn print(&self, alloc: Global) -> Result<String, AllocError>
        ensures text { IfOk result (λ text. string_bytes text ≡ arn_text self.now) }
        ensures reads { IfOk result (λ text. arn_of (string_bytes text) ≡ Some self.now) }
    {
        match self {
            Arn::Bucket(bucket) => bucket_text(alloc, bucket),
            Arn::Object(bucket, key) => object_text(alloc, bucket, key),
        }
    }
}

fn bucket_text(alloc: Global, bucket: &BucketName) -> Result<String, AllocError>
    ensures text { IfOk result (λ text. string_bytes text ≡ arn_text (Arn.Bucket bucket.now)) }
    ensures named { OnOk result (IsTrue (is_bucket_name bucket.now)) }
{
    let mut text = String::from_str(alloc, PREFIX)?;
    text.push_str(bucket.as_str())?;
    Ok(text)
}

fn object_text(alloc: Global, bucket: &BucketName, key: &Key) -> Result<String, AllocError>
    ensures text { IfOk result (λ text. string_bytes text ≡ arn_text (Arn.Object bucket.now key.now)) }
    ensures named { OnOk result (IsTrue (is_bucket_name bucket.now && is_key key.now)) }
{
    let mut text = bucket_text(alloc, bucket)?;
    text.push_str("/")?;
    text.push_str(key.as_str())?;
    Ok(text)
}

fn first_slash(bytes: &[u8]) -> Option<usize>
    ensures at { result ≡ position (λ byte. byte == 47) bytes.now }
    ensures within { IfSome result (λ place. place < length bytes.now) }
{
    bytes.iter().position(|byte| *byte == b'/')
}

/// What stands behind the prefix.
fn read_name(alloc: Global, bytes: &[u8]) -> Result<Arn, NameFault>
    ensures ok { IfOk result (λ arn. named_by bytes.now ≡ Some arn) }
    ensures refused { IsErrOf result NameFault.InvalidArn ↔ (named_by bytes.now ≡ None) }
    ensures faults { IfErr result (λ fault. (fault ≡ NameFault.InvalidArn) ⊎ (fault ≡ NameFault.OutOfMemory)) }
{
    match first_slash(bytes) {
        None => read_bucket(alloc, bytes),
        Some(slash) => read_object(alloc, &bytes[..slash], &bytes[slash + 1..]),
    }
}

fn read_bucket(alloc: Global, name: &[u8]) -> Result<Arn, NameFault>
    ensures ok { IfOk result (λ arn. bucket_arn name.now ≡ Some arn) }
    ensures refused { IsErrOf result NameFault.InvalidArn ↔ (bucket_arn name.now ≡ None) }
    ensures faults { IfErr result (λ fault. (fault ≡ NameFault.InvalidArn) ⊎ (fault ≡ NameFault.OutOfMemory)) }
{
    if !is_bucket_name(name) {
        return Err(NameFault::InvalidArn);
    }
    Ok(Arn::Bucket(BucketName::read(alloc, name)?))
}

fn read_object(alloc: Global, name: &[u8], key: &[u8]) -> Result<Arn, NameFault>
    ensures ok { IfOk result (λ arn. object_arn name.now key.now ≡ Some arn) }
    ensures refused { IsErrOf result NameFault.InvalidArn ↔ (object_arn name.now key.now ≡ None) }
    ensures faults { IfErr result (λ fault. (fault ≡ NameFault.InvalidArn) ⊎ (fault ≡ NameFault.OutOfMemory)) }
{
    if !is_bucket_name(name) || !is_key(key) {
        return Err(NameFault::InvalidArn);
    }
    Ok(Arn::Object(BucketName::read(alloc, name)?, Key::read(alloc, key)?))
}
