//! A bucket's versions, in the order in which a listing shows them.
#![tactic(auto)]

mod laws;
mod listing;
mod removed;
mod row;
mod rows;

pub use laws::{
    changes_keep_order, greater_stamp_wins, order_of_changes_is_free, pages_are_complete,
    removed_ids_rise, rows_are_ordered,
};
pub use listing::{Entries, ListFault, ListPosition, Listed, Listing};
pub use row::{Origin, Row};
pub use rows::Rows;
