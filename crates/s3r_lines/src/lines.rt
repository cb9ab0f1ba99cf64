//! The lines of a manifest.

ghost use Rattle.std.specs.Prelude.{◌≡◌, ◌≤◌, [], length};

use crate::object::ObjectRef;
use std::alloc::Global;
use std::marker::Model;

/// The most lines of a manifest.
pub const MOST_LINES: usize = 20_000;

/// The lines of a manifest, at most 20,000, seen as their list.
#[derive(Drop)]
pub struct Lines {
    lines: Vec<ObjectRef>,
}

impl Model for Lines {
    ghost use Rattle.std.specs.Prelude.{List, ◌≤◌, length};
    ghost use Rattle.s3r_lines.specs.declared.object.ObjectRef.{ObjectRef};

    ghost Value = { List ObjectRef };

    ghost view = { λ object. object.lines.items };

    ghost invariant = { λ object. length object.lines.items ≤ 20000 };
}

impl Lines {
    pub fn none(alloc: Global) -> Lines
        ensures { result ≡ [] }
    {
        Lines {
            lines: Vec::new(alloc),
        }
    }

    pub fn from_vec(lines: Vec<ObjectRef>) -> Lines
        requires { length lines.items ≤ MOST_LINES }
        ensures { result ≡ lines.items }
    {
        Lines { lines }
    }

    pub fn as_slice(&self) -> &[ObjectRef]
        ensures listed { result.now ≡ self.now }
        ensures few { length self.now ≤ MOST_LINES }
    {
        self.lines.as_slice()
    }
}
