//! Requests and answers as bytes: the framing of RFC 9112 in the profile of this product.
#![tactic(auto)]

mod buffer;
mod head;
mod laws;
mod lengths;
mod lines;
mod message;
mod reading;
mod response;

pub use buffer::Buffer;
pub use laws::{one_cause, one_request, some_text};
pub use message::{Field, Fields, HttpFault, RawRequest};
pub use reading::{has_more, read_request};
pub use response::{print_head, print_response};
