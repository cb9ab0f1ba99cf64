//! What a region sends to others and receives from them. It keeps the tasks to each region with their states and the last
//! number that it received from each, and tells a version's status by its tasks.
#![tactic(auto)]

mod inbox;
mod outbox;
mod queue;
mod status;
mod task;

pub use inbox::{Arrival, Inbox, Noted};
pub use outbox::{Claim, Outbox};
pub use s3r_names::{Outcome, Reason, Status};
pub use status::status_of;
pub use task::{MOST_ATTEMPTS, Task, TaskState};
