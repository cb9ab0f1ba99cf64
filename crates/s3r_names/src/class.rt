//! A storage class.

ghost use Rattle.std.specs.Prelude.{◌≡◌, ◌↔◌, ◌⊎◌, IsTrue, IfOk, OnOk, IfErr, IsErrOf, false, codes};
ghost use Rattle.std.specs.Cmp.{partial_equiv_from_equiv};
ghost use Rattle.std.specs.List.{list_all};
ghost use Rattle.std.specs.Str.{bytes_eq};
ghost use Rattle.std.proofs.lemmas.Cmp.{nat_list_eq_equiv};
ghost use Rattle.s3r_names.specs.Class.{is_class_name, is_class_byte};

use crate::{NameFault, Text};
use std::alloc::{AllocError, Global};
use std::marker::Model;
use std::str;

/// A storage class, seen as the bytes of its name.
#[derive(Debug, Drop)]
pub struct ClassName {
    name: Text,
}

impl Model for ClassName {
    ghost use Rattle.std.specs.Prelude.{List, ℕ, IsTrue};
    ghost use Rattle.s3r_names.specs.Class.{is_class_name};

    ghost Value = { List ℕ };

    ghost view = { λ class. class.name };

    ghost invariant = { λ class. IsTrue (is_class_name class.name) };
}

impl ClassName {
    /// The class of what names none.
    pub fn standard(alloc: Global) -> Result<ClassName, AllocError>
        ensures { IfOk result (λ class. class ≡ codes "STANDARD") }
    {
        Ok(ClassName {
            name: Text::from_str(alloc, "STANDARD")?,
        })
    }

    /// The class that the bytes spell.
    pub fn read(alloc: Global, bytes: &[u8]) -> Result<ClassName, NameFault>
        ensures ok { IfOk result (λ class. class ≡ bytes.now) }
        ensures named { OnOk result (IsTrue (is_class_name bytes.now)) }
        ensures refused { IsErrOf result NameFault.InvalidStorageClass ↔ (is_class_name bytes.now ≡ false) }
        ensures faults { IfErr result (λ fault. (fault ≡ NameFault.InvalidStorageClass) ⊎ (fault ≡ NameFault.OutOfMemory)) }
    {
        if !is_class_name(bytes) {
            return Err(NameFault::InvalidStorageClass);
        }
        match str::from_utf8(bytes) {
            Ok(text) => Ok(ClassName {
                name: Text::from_str(alloc, text)?,
            }),
            Err(_) => unreachable!(),
        }
    }

    pub fn as_str(&self) -> &str
        ensures spelled { result.now ≡ self.now }
        ensures named { IsTrue (is_class_name self.now) }
    {
        self.name.as_str()
    }

    pub fn as_bytes(&self) -> &[u8]
        ensures spelled { result.now ≡ self.now }
        ensures named { IsTrue (is_class_name self.now) }
    {
        self.name.as_str().as_bytes()
    }
}

impl Clone for ClassName {
    ghost is_clone = { λ class copy. copy ≡ class };

    fn clone(&self) -> Result<ClassName, AllocError> {
        Ok(ClassName {
            name: self.name.clone()?,
        })
    }
}

impl PartialEq for ClassName {
    ghost eq = { bytes_eq };

    ghost laws = { partial_equiv_from_equiv nat_list_eq_equiv };

    fn eq(&self, other: &ClassName) -> bool {
        self.name == other.name
    }
}

impl Eq for ClassName {
    ghost laws = { nat_list_eq_equiv };
}

fn is_class_byte(byte: u8) -> bool
    ensures { result ≡ is_class_byte byte }
{
    matches!(byte, b'A'..=b'Z' | b'0'..=b'9' | b'_')
}

fn has_class_bytes(bytes: &[u8]) -> bool
    ensures { result ≡ list_all is_class_byte bytes.now }
{
    bytes.iter().all(|byte| is_class_byte(*byte))
}

fn is_class_name(bytes: &[u8]) -> bool
    ensures { result ≡ is_class_name bytes.now }
{
    1 <= bytes.len() && bytes.len() <= 32 && has_class_bytes(bytes)
}
