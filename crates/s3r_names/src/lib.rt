//! The names that requests, commands and tables speak of, each seen by contracts as what it spells.
#![tactic(auto)]

mod arn;
mod bucket;
mod bucket_rule;
mod class;
mod fault;
mod form;
mod kept;
mod key;
mod laws;
mod outcome;
mod stamp;
mod tag_order;
mod tag_rule;
mod tags;
mod texts;
mod version;

pub use arn::Arn;
pub use bucket::BucketName;
pub use class::ClassName;
pub use fault::NameFault;
pub use form::form_pairs;
pub use kept::Kept;
pub use key::Key;
pub use laws::tags_are_put_in_order;
pub use outcome::{Outcome, Reason, Status};
pub use stamp::{Stamp, is_before};
pub use tag_rule::is_key_below;
pub use tags::{Tag, TagSet};
pub use texts::{Bytes, Text};
pub use version::VersionId;
