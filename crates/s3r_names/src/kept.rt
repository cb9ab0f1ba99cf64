//! A stored body.

ghost use Rattle.std.specs.Prelude.{◌≡◌, IfOk};

use crate::Bytes;
use std::alloc::{AllocError, Global};
use std::marker::Model;
use std::rc::Rc;

/// A stored body, seen as its bytes. All that speak of one body share it: a clone copies no byte.
#[derive(Drop)]
pub struct Kept {
    bytes: Rc<Bytes>,
}

impl Model for Kept {
    ghost use Rattle.std.specs.Prelude.{List, ℕ};

    ghost Value = { List ℕ };

    ghost view = { λ kept. kept.bytes.value };
}

impl Kept {
    pub fn new(alloc: Global, bytes: Bytes) -> Result<Kept, AllocError>
        ensures { IfOk result (λ kept. kept ≡ bytes) }
    {
        match Rc::new(alloc, bytes) {
            Ok(bytes) => Ok(Kept { bytes }),
            Err(_) => Err(AllocError),
        }
    }

    pub fn as_slice(&self) -> &[u8]
        ensures { result.now ≡ self.now }
    {
        self.bytes.as_ref().as_slice()
    }
}

impl Clone for Kept {
    ghost is_clone = { λ kept copy. copy ≡ kept };

    fn clone(&self) -> Result<Kept, AllocError> {
        Ok(Kept {
            bytes: self.bytes.clone()?,
        })
    }
}
