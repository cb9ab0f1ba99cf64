//! The commands of a region's history, and their one spelling as bytes.
#![tactic(auto)]

mod bucket_decoding;
mod bucket_encoding;
mod command;
mod decoding;
mod effect;
mod effect_decoding;
mod effect_encoding;
mod effect_kinds;
mod effect_parts;
mod encoding;
mod fault;
mod fields;
mod id_fields;
mod job_decoding;
mod job_encoding;
mod job_fields;
mod kinds;
mod laws;
mod reading;
mod replication_decoding;
mod replication_encoding;
mod rule_fields;
mod rule_parts;
mod rule_texts;
mod rule_writing;
mod tag_fields;
mod tag_rule;
mod tags;
mod task_decoding;
mod task_encoding;
mod text_fields;
mod version_decoding;
mod version_encoding;
mod writing;

pub use command::Command;
pub use decoding::decode;
pub use effect::Effect;
pub use encoding::encode;
pub use fault::RecordFault;
pub use laws::{one_spelling, spelling_is_short};
pub use replication_encoding::{fits_record, regions_keep_length};
pub use rule_texts::are_texts;
