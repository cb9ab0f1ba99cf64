//! One rule.
ghost use Rattle.std.specs.Prelude.{◌≡◌, length};
ghost use Rattle.std.specs.List.{list_any};
ghost use Rattle.std.specs.Str.{chars};
ghost use Rattle.s3r_rules.specs.Rules.{has_id, has_priority};

use s3r_names::{BucketName, ClassName, TagSet, Text};
use std::alloc::AllocError;

/// What of a bucket is copied, and where to.
#[derive(Drop)]
pub struct Rule {
    /// Up to 255 characters, and no other rule's.
    pub id: Text,
    /// Up to 2,147,483,647, and no other rule's to the same bucket.
    pub priority: u32,
    /// A rule that isn't enabled prescribes nothing.
    pub enabled: bool,
    /// Up to 1,024 bytes, with which a key begins.
    pub prefix: Text,
    /// Tags that an object has.
    pub tags: TagSet,
    /// Whether delete markers are copied. Then there are no tags.
    pub markers: bool,
    /// The destination.
    pub bucket: BucketName,
    /// The class of the copies, the object's own where none is given.
    pub class: Option<ClassName>,
    /// Whether changes of a replica's tags and hold are copied on.
    pub replica_modifications: bool,
}

impl Clone for Rule {
    ghost use Rattle.std.specs.Prelude.{◌≡◌};

    ghost is_clone = { λ rule copy. copy ≡ rule };

    fn clone(&self) -> Result<Rule, AllocError> {
        let class = match &self.class {
            Some(class) => Some(class.clone()?),
            None => None,
        };
        Ok(Rule {
            id: self.id.clone()?,
            priority: self.priority,
            enabled: self.enabled,
            prefix: self.prefix.clone()?,
            tags: self.tags.clone()?,
            markers: self.markers,
            bucket: self.bucket.clone()?,
            class,
            replica_modifications: self.replica_modifications,
        })
    }
}

pub(crate) fn char_count(text: &str) -> usize
    ensures { result ≡ length (chars text.now) }
{
    text.chars().count()
}

/// Whether one of these rules has its ID.
pub(crate) fn has_id(rule: &Rule, others: &[Rule]) -> bool
    ensures { result ≡ list_any (has_id rule.now) others.now }
{
    others.iter().any(|other| rule.id == other.id)
}

/// Whether one of these rules to the same bucket has its priority.
pub(crate) fn has_priority(rule: &Rule, others: &[Rule]) -> bool
    ensures { result ≡ list_any (has_priority rule.now) others.now }
{
    others.iter().any(|other| rule.bucket == other.bucket && rule.priority == other.priority)
}
