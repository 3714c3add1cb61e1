//! The superblock: four copies of one value, and the calls that write and mend them.
#![tactic(auto)]

mod bytes;
mod check;
mod copies;
mod fields;
mod laws;
mod listing;
mod opening;
mod places;
mod reading;
mod recovering;
mod sectors;
mod value;
mod writing;

pub use fields::Fields;
pub use laws::superblock_laws;
pub use opening::{Found, opens};
pub use recovering::{CopyVerdict, FindFault, FoundValue, SuperFault, find, mend_found, recover};
pub use value::Super;
pub use writing::{mend_value, write, write_copies};
