//! An object's key.

ghost use Rattle.std.specs.Prelude.{◌≡◌, ◌≤◌, ◌<◌, ◌↔◌, ◌⊎◌, IsTrue, IfOk, OnOk, IfErr, IsErrOf, IfSome, is_some, false, length};
ghost use Rattle.std.specs.Cmp.{partial_equiv_from_equiv};
ghost use Rattle.std.specs.Str.{bytes_eq};
ghost use Rattle.std.proofs.lemmas.Cmp.{nat_list_eq_equiv};
ghost use Rattle.s3r_names.specs.Key.{is_key};

use crate::{NameFault, Text};
use std::alloc::{AllocError, Global};
use std::marker::Model;
use std::str;

/// The most bytes of a key.
const LIMIT: usize = 1024;

/// An object's key, seen as its bytes.
#[derive(Debug, Drop)]
pub struct Key {
    key: Text,
}

impl Model for Key {
    ghost use Rattle.std.specs.Prelude.{List, ℕ, IsTrue};
    ghost use Rattle.s3r_names.specs.Key.{is_key};

    ghost Value = { List ℕ };

    ghost view = { λ object. object.key };

    ghost invariant = { λ object. IsTrue (is_key object.key) };
}

impl Key {
    /// The key that the bytes spell.
    pub fn read(alloc: Global, bytes: &[u8]) -> Result<Key, NameFault>
        ensures ok { IfOk result (λ key. key ≡ bytes.now) }
        ensures named { OnOk result (IsTrue (is_key bytes.now)) }
        ensures long { IsErrOf result NameFault.KeyTooLong ↔ (1024 < length bytes.now) }
        ensures refused { IsErrOf result NameFault.InvalidKey ↔ ((length bytes.now ≤ 1024) × (is_key bytes.now ≡ false)) }
        ensures faults { IfErr result (λ fault. (fault ≡ NameFault.KeyTooLong) ⊎ ((fault ≡ NameFault.InvalidKey) ⊎ (fault ≡ NameFault.OutOfMemory))) }
    {
        if bytes.len() > LIMIT {
            return Err(NameFault::KeyTooLong);
        }
        match key_text(bytes) {
            Some(text) => Ok(Key {
                key: Text::from_str(alloc, text)?,
            }),
            None => Err(NameFault::InvalidKey),
        }
    }

    pub fn as_str(&self) -> &str
        ensures spelled { result.now ≡ self.now }
        ensures named { IsTrue (is_key self.now) }
    {
        self.key.as_str()
    }

    pub fn as_bytes(&self) -> &[u8]
        ensures spelled { result.now ≡ self.now }
        ensures named { IsTrue (is_key self.now) }
    {
        self.key.as_str().as_bytes()
    }
}

impl Clone for Key {
    ghost is_clone = { λ key copy. copy ≡ key };

    fn clone(&self) -> Result<Key, AllocError> {
        Ok(Key {
            key: self.key.clone()?,
        })
    }
}

impl PartialEq for Key {
    ghost eq = { bytes_eq };

    ghost laws = { partial_equiv_from_equiv nat_list_eq_equiv };

    fn eq(&self, other: &Key) -> bool {
        self.key == other.key
    }
}

impl Eq for Key {
    ghost laws = { nat_list_eq_equiv };
}

/// The bytes as text, if they are a key.
fn key_text(bytes: &[u8]) -> Option<&str>
    ensures text { IfSome result (λ text. text.now ≡ bytes.now) }
    ensures named { is_some result ≡ is_key bytes.now }
{
    if bytes.is_empty() || bytes.len() > LIMIT {
        return None;
    }
    str::from_utf8(bytes).ok()
}

pub(crate) fn is_key(bytes: &[u8]) -> bool
    ensures { result ≡ is_key bytes.now }
{
    key_text(bytes).is_some()
}
