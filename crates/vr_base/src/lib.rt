//! What every crate of the repository uses: lists that contracts see as lists, the sizes and quorums of groups,
//! names and fields of bytes, the words for the causes of faults, and how a run of the program ends.
#![tactic(auto)]

mod fields;
mod groups;
mod kind;
mod member;
mod memory;
mod mode;
mod replicas;
mod seq;
mod status;
mod sum;
mod table;
mod version;
mod zeros;

pub use fields::{put, put_sum, put_u16, put_u32, put_u64, sum_at, u16_at, u32_at, u64_at};
pub use groups::{is_size, quorums};
pub use kind::Kind;
pub use memory::NoMemory;
pub use mode::Mode;
pub use replicas::Replicas;
pub use seq::{ByteList, Seq};
pub use status::{Status, code, status_line};
pub use sum::{Sum, checksum, checksum_of_parts};
pub use table::{Config, Quorums};
pub use version::{Version, is_version};
pub use zeros::is_zeros;
