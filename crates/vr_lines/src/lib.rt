//! The language of schedules: its words, numbers, operations and lines, and where lines end in the pieces of a source.
#![tactic(auto)]

mod group;
mod line;
mod lines;
mod member;
mod number;
mod operation;
mod parsing;
mod reading;
mod request;
mod versions;
mod words;

pub use line::Line;
pub use lines::{Lines, Next};
pub use number::{read_below, read_number};
pub use operation::parse_operation;
pub use parsing::{LineFault, parse_line};
pub use reading::Found;
pub use versions::{LONGEST, line_sectors};
