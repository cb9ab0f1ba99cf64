//! Tags as they are spelled.

use s3r_names::Tag;
use std::marker::Model;

/// Tags that need not be a set, seen as their list.
#[derive(Drop)]
pub(crate) struct Tags {
    tags: Vec<Tag>,
}

impl Model for Tags {
    ghost use Rattle.std.specs.Prelude.{List};
    ghost use Rattle.s3r_names.specs.declared.tags.Tag.{Tag};

    ghost Value = { List Tag };

    ghost view = { λ spelled. spelled.tags.items };
}

impl Tags {
    ghost use Rattle.std.specs.Prelude.{◌≡◌};

    pub(crate) fn from_vec(tags: Vec<Tag>) -> Tags
        ensures { result ≡ tags.items }
    {
        Tags { tags }
    }

    pub(crate) fn into_vec(self) -> Vec<Tag>
        ensures { result.items ≡ self }
    {
        self.tags
    }
}
