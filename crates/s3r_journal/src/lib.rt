//! A volume as a journal of commands. A record counts once its gate is open, and its gate is opened by a write of
//! its own, when all behind it is stable.
#![tactic(auto)]

mod laws;
mod scanning;
mod window;
mod writing;

pub use laws::{front_begins, one_end, one_history, scanning_stands, standing_scans};
pub use scanning::{ScanFault, Scanned, scan, scan_in};
pub use window::Window;
pub use writing::{AppendFault, append, create};
