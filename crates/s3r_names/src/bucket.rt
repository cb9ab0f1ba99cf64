//! A bucket's name.

ghost use Rattle.std.specs.Prelude.{◌≡◌, ◌↔◌, ◌⊎◌, IsTrue, IfOk, OnOk, IfErr, IsErrOf, false};
ghost use Rattle.std.specs.Str.{bytes_eq};
ghost use Rattle.std.specs.Cmp.{partial_equiv_from_equiv};
ghost use Rattle.std.proofs.lemmas.Cmp.{nat_list_eq_equiv};
ghost use Rattle.s3r_names.specs.Bucket.{is_bucket_name};

use crate::bucket_rule::is_bucket_name;
use crate::{NameFault, Text};
use std::alloc::{AllocError, Global};
use std::marker::Model;
use std::str;

/// A bucket's name, seen as its bytes.
#[derive(Debug, Drop)]
pub struct BucketName {
    name: Text,
}

impl Model for BucketName {
    ghost use Rattle.std.specs.Prelude.{List, ℕ, IsTrue};
    ghost use Rattle.s3r_names.specs.Bucket.{is_bucket_name};

    ghost Value = { List ℕ };

    ghost view = { λ bucket. bucket.name };

    ghost invariant = { λ bucket. IsTrue (is_bucket_name bucket.name) };
}

impl BucketName {
    /// The name that the bytes spell.
    pub fn read(alloc: Global, bytes: &[u8]) -> Result<BucketName, NameFault>
        ensures ok { IfOk result (λ name. name ≡ bytes.now) }
        ensures named { OnOk result (IsTrue (is_bucket_name bytes.now)) }
        ensures refused { IsErrOf result NameFault.InvalidBucketName ↔ (is_bucket_name bytes.now ≡ false) }
        ensures faults { IfErr result (λ fault. (fault ≡ NameFault.InvalidBucketName) ⊎ (fault ≡ NameFault.OutOfMemory)) }
    {
        if !is_bucket_name(bytes) {
            return Err(NameFault::InvalidBucketName);
        }
        match str::from_utf8(bytes) {
            Ok(text) => Ok(BucketName {
                name: Text::from_str(alloc, text)?,
            }),
            Err(_) => unreachable!(),
        }
    }

    pub fn as_str(&self) -> &str
        ensures spelled { result.now ≡ self.now }
        ensures named { IsTrue (is_bucket_name self.now) }
    {
        self.name.as_str()
    }

    pub fn as_bytes(&self) -> &[u8]
        ensures spelled { result.now ≡ self.now }
        ensures named { IsTrue (is_bucket_name self.now) }
    {
        self.name.as_str().as_bytes()
    }
}

impl Clone for BucketName {
    ghost is_clone = { λ name copy. copy ≡ name };

    fn clone(&self) -> Result<BucketName, AllocError> {
        Ok(BucketName {
            name: self.name.clone()?,
        })
    }
}

impl PartialEq for BucketName {
    ghost eq = { bytes_eq };

    ghost laws = { partial_equiv_from_equiv nat_list_eq_equiv };

    fn eq(&self, other: &BucketName) -> bool {
        self.name == other.name
    }
}

impl Eq for BucketName {
    ghost laws = { nat_list_eq_equiv };
}
