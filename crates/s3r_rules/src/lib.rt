//! Replication rules: a bucket's configuration made of rules as they are written, and chosen from.
#![tactic(auto)]

mod buckets;
mod choice;
mod config;
mod draft;
mod fault;
mod lawful;
mod laws;
mod per_destination;
mod reading;
mod rule;

pub use buckets::destinations;
pub use choice::{Write, choice_marker, choice_meta, choice_put, matches};
pub use config::Config;
pub use draft::{Destination, Draft, Filter};
pub use fault::{ConfigFault, Kind};
pub use laws::one_rule_decides;
pub use per_destination::{Choice, choices};
pub use reading::rule_from;
pub use rule::Rule;
