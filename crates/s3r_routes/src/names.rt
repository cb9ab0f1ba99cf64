//! The names of a target.

ghost use Rattle.std.specs.Prelude.{◌≡◌};
ghost use Rattle.s3r_routes.specs.Names.{bucket_named, key_named, key_written, version_named};
ghost use Rattle.s3r_routes.specs.Faults.{Gives};

use crate::fault::RouteFault;
use percent_encoding::percent_decode;
use s3r_names::{BucketName, Key, NameFault, VersionId};
use std::alloc::Global;

/// The bucket that the bytes name, which are not decoded.
pub fn bucket_named(alloc: Global, bytes: &[u8]) -> Result<BucketName, RouteFault>
    ensures { Gives result (bucket_named bytes.now) }
{
    match BucketName::read(alloc, bytes) {
        Ok(name) => Ok(name),
        Err(NameFault::InvalidBucketName) => Err(RouteFault::InvalidBucketName),
        Err(_) => Err(RouteFault::OutOfMemory),
    }
}

/// The key that the bytes spell.
pub fn key_named(alloc: Global, bytes: &[u8]) -> Result<Key, RouteFault>
    ensures { Gives result (key_named bytes.now) }
{
    match Key::read(alloc, bytes) {
        Ok(key) => Ok(key),
        Err(NameFault::KeyTooLong) => Err(RouteFault::KeyTooLong),
        Err(NameFault::InvalidKey) => Err(RouteFault::InvalidKey),
        Err(_) => Err(RouteFault::OutOfMemory),
    }
}

/// The key of a path, where it is written percent-encoded (RFC 3986, section 2.1).
pub fn key_written(alloc: Global, written: &[u8]) -> Result<Key, RouteFault>
    ensures { Gives result (key_written written.now) }
{
    let mut bytes = Vec::new(alloc);
    percent_decode(written).append_to(&mut bytes)?;
    key_named(alloc, bytes.as_slice())
}

/// The version whose id this is.
pub fn version_named(id: &[u8]) -> Result<VersionId, RouteFault>
    ensures { result ≡ version_named id.now }
{
    match VersionId::read(id) {
        Some(id) => Ok(id),
        None => Err(RouteFault::InvalidVersionId),
    }
}
