//! Which row of the request table a request fits, and what the words of its query name.
#![tactic(auto)]

mod fault;
mod laws;
mod names;
mod numbers;
mod query;
mod routes;
mod rows;
mod target;
mod values;
mod words;

pub use fault::RouteFault;
pub use laws::one_row_fits;
pub use names::{bucket_named, key_named, key_written, version_named};
pub use numbers::number_named;
pub use query::Query;
pub use routes::Routes;
pub use rows::{Route, route_of};
pub use target::{Target, path_of};
pub use values::{given, limit_of, version_of};
pub use words::Word;
