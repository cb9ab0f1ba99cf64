//! A job as JSON (S3 API Reference, CreateJob): read into what it asks for.
#![tactic(auto)]

mod bodies;
mod draft;
mod fault;
mod form;
mod limits;

pub use bodies::read_job;
pub use fault::JobFault;
