//! JSON bodies read and printed exactly. A body is read as a `Value`, and what the value says is asked by getters.
#![tactic(auto)]

mod body;
mod fault;
mod members;
mod status;
mod tags;

pub use body::{read_value, text_of};
pub use fault::BodyFault;
pub use members::{flag_of, has_only, list_at, only_at, only_text_at, optional_text_at, text_at};
pub use status::{status_at, status_of, status_text};
pub use tags::{tag_at, tag_list_at, tag_list_value, tag_value, tags_at, tags_of, tags_text};
