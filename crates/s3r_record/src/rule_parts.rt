//! The fields of a rule, whose form alone was looked at.

use crate::tags::Tags;
use s3r_names::Text;

/// Those before its region.
#[derive(Drop)]
pub(crate) struct Front {
    pub(crate) id: Text,
    pub(crate) priority: u32,
    pub(crate) enabled: bool,
    pub(crate) prefix: Text,
    pub(crate) tags: Tags,
    pub(crate) markers: bool,
    pub(crate) bucket: Text,
}

/// Its region and those behind it.
#[derive(Drop)]
pub(crate) struct Back {
    pub(crate) region: u8,
    pub(crate) class: Option<Text>,
    pub(crate) replica_modifications: bool,
}
