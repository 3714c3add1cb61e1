//! What a program decides about the outside: which stream gives its place up to a newcomer (`guest`, `turn`, `places`), when a call that failed
//! is made again (`again`), and what it counts as (`counting`); what is known of a file's sectors and done next about them (`cache`, `cached`,
//! `page_buffer`), how long the file is (`lengths`), which sender a port stands for (`ports`), from whom a message is taken (`origin`), which
//! answer is held back (`answers`, `topic`, `receiver`), how many descriptors a start wants (`wants`), and what time it is where a clock fails
//! (`millis`). Nothing is called here.
#![tactic(auto)]

mod again;
mod answers;
mod cache;
mod cached;
mod counting;
mod guest;
mod laws;
mod lengths;
mod millis;
mod origin;
mod page_buffer;
mod places;
mod ports;
mod receiver;
mod topic;
mod turn;
mod wants;

pub use again::{Again, is_passing};
pub use answers::{Answer, Answers, Passed, repeat_laws};
pub use cache::{Next, PAGE_SECTORS, SectorCache};
pub use cached::Cached;
pub use counting::counted;
pub use guest::Guest;
pub use laws::{file_laws, place_laws};
pub use lengths::{FILE_SIZE, Length, length_of, sectors_begun};
pub use millis::millis_of;
pub use origin::{Door, Origin, is_taken, origin_laws};
pub use page_buffer::PageBuffer;
pub use places::{PLACES, Places};
pub use ports::{NOBODY, Ports, Sender, number};
pub use receiver::Receiver;
pub use topic::{Topic, is_answer};
pub use turn::{Newcomer, Turn};
pub use wants::descriptors_wanted;
