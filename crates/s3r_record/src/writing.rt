//! Fields, written at the end of a spelling.

ghost use Rattle.std.specs.Prelude.{◌≡◌, ◌≤◌, ◌<◌, ◌^◌, ◌++◌, length, IsTrue, OnOk};
ghost use Rattle.std.specs.List.{list_all, flat_map};
ghost use Rattle.s3r_names.specs.Class.{is_class_name};
ghost use Rattle.s3r_names.specs.Tags.{is_tag, is_tag_set};
ghost use Rattle.s3r_record.specs.Fields.{text, body, flag, tag_bytes, tags_bytes, id_bytes, number_bytes, stamp_bytes};

use s3r_names::{ClassName, Stamp, Tag, TagSet, VersionId};
use std::alloc::AllocError;

pub(crate) fn write_flag(out: &mut Vec<u8>, value: bool) -> Result<(), AllocError>
    ensures { OnOk result (out.new.items ≡ out.old.items ++ flag value) }
{
    out.push(if value { 1 } else { 0 })?;
    Ok(())
}

pub(crate) fn write_text(out: &mut Vec<u8>, bytes: &[u8]) -> Result<(), AllocError>
    requires { length bytes.now < 2 ^ 16 }
    ensures { OnOk result (out.new.items ≡ out.old.items ++ text bytes.now) }
{
    out.extend_from_slice(&(bytes.len() as u16).to_be_bytes())?;
    out.extend_from_slice(bytes)
}

pub(crate) fn write_body(out: &mut Vec<u8>, bytes: &[u8]) -> Result<(), AllocError>
    requires { length bytes.now < 2 ^ 32 }
    ensures { OnOk result (out.new.items ≡ out.old.items ++ body bytes.now) }
{
    out.extend_from_slice(&(bytes.len() as u32).to_be_bytes())?;
    out.extend_from_slice(bytes)
}

pub(crate) fn write_class(out: &mut Vec<u8>, class: &ClassName) -> Result<(), AllocError>
    ensures spelled { OnOk result (out.new.items ≡ out.old.items ++ text class.now) }
    ensures named { OnOk result (IsTrue (is_class_name class.now)) }
{
    write_text(out, class.as_bytes())
}

fn write_tag(out: &mut Vec<u8>, tag: &Tag) -> Result<(), AllocError>
    requires { IsTrue (is_tag tag.now) }
    ensures { OnOk result (out.new.items ≡ out.old.items ++ tag_bytes tag.now) }
{
    write_text(out, tag.key.as_bytes())?;
    write_text(out, tag.value.as_bytes())
}

fn write_each_tag(out: &mut Vec<u8>, tags: &[Tag]) -> Result<(), AllocError>
    requires { IsTrue (list_all is_tag tags.now) }
    ensures { OnOk result (out.new.items ≡ out.old.items ++ flat_map tag_bytes tags.now) }
{
    for tag in tags {
        write_tag(out, tag)?;
    }
    Ok(())
}

pub(crate) fn write_tags(out: &mut Vec<u8>, tags: &TagSet) -> Result<(), AllocError>
    ensures spelled { OnOk result (out.new.items ≡ out.old.items ++ tags_bytes tags.now) }
    ensures named { OnOk result (IsTrue (is_tag_set tags.now)) }
{
    let tags = tags.as_slice();
    out.push(tags.len() as u8)?;
    write_each_tag(out, tags)
}

pub(crate) fn write_id(out: &mut Vec<u8>, id: VersionId) -> Result<(), AllocError>
    ensures { OnOk result (out.new.items ≡ out.old.items ++ id_bytes id) }
{
    out.push(id.region)?;
    out.extend_from_slice(&id.index.to_be_bytes())
}

pub(crate) fn write_number(out: &mut Vec<u8>, number: u64) -> Result<(), AllocError>
    ensures { OnOk result (out.new.items ≡ out.old.items ++ number_bytes number) }
{
    out.extend_from_slice(&number.to_be_bytes())
}

pub(crate) fn write_stamp(out: &mut Vec<u8>, stamp: Stamp) -> Result<(), AllocError>
    ensures { OnOk result (out.new.items ≡ out.old.items ++ stamp_bytes stamp) }
{
    write_number(out, stamp.n)?;
    out.push(stamp.region)?;
    write_number(out, stamp.index)
}
