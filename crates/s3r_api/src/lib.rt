//! From a framed request to a request of the desk, and from an answer to its bytes.
#![tactic(auto)]

mod answer;
mod copies;
mod ids;
mod job_answers;
mod jobs;
mod lines;
mod listings;
mod location;
mod numbers;
mod page;
mod pair;
mod problem;
mod replication;
mod replies;
mod request;

pub use answer::{answer_bytes, head_begins, ids_are_spelled, problem_bytes};
pub use problem::{Problem, framing_problem};
pub use request::{is_head, to_request};
