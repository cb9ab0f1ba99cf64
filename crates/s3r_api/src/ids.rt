//! The text of a version's id.

ghost use Rattle.std.specs.Prelude.{◌≡◌, IfOk};
ghost use Rattle.s3r_names.specs.Version.{IsVersionId, version_text};
ghost use Rattle.s3r_api.specs.Ids.{id_text};

use s3r_names::{Bytes, Text, VersionId};
use std::alloc::{AllocError, Global};
use std::str;

/// The text of an id that a version may have.
fn spelled(alloc: Global, id: VersionId) -> Result<Text, AllocError>
    requires { IsVersionId id }
    ensures { IfOk result (λ text. text ≡ version_text id) }
{
    let mut bytes = [0; 18];
    id.print(&mut bytes);
    match str::from_utf8(&bytes) {
        Ok(text) => Text::from_str(alloc, text),
        Err(_) => unreachable!(),
    }
}

/// The text of an id: none where no version has it.
pub fn id_text(alloc: Global, id: VersionId) -> Result<Text, AllocError>
    ensures { IfOk result (λ text. text ≡ id_text id) }
{
    if id.region > 7 || id.index == 0 {
        return Text::from_str(alloc, "");
    }
    spelled(alloc, id)
}

/// The bytes of that text.
pub fn id_bytes(alloc: Global, id: VersionId) -> Result<Bytes, AllocError>
    ensures { IfOk result (λ bytes. bytes ≡ id_text id) }
{
    let text = id_text(alloc, id)?.into_string();
    Ok(Bytes::from_vec(text.into_bytes()))
}
