//! Where the parts of a copy stand, and how many bytes some of them have. Its text is what stands after the name.
use vr_disk::COPY_SIZE;
use vr_header::NAMED_AT;

/// The bytes of a text.
pub const TEXT_SIZE: usize = COPY_SIZE - NAMED_AT;

pub const SEQUENCE_AT: usize = 16;

pub const CLUSTER_AT: usize = 24;

pub const VIEW_AT: usize = 32;

pub const LOG_VIEW_AT: usize = 36;

pub const CHECKPOINT_AT: usize = 40;

pub const ROOT_ADDRESS_AT: usize = 48;

pub const ROOT_NAME_AT: usize = 56;

pub const COMMIT_AT: usize = 72;

pub const HEAD_AT: usize = 80;

/// The number of headers.
pub const COUNT_AT: usize = 88;

/// The number of the member, of members, the version and the mode have a byte each.
pub const REPLICA_AT: usize = 90;

pub const MEMBERS_AT: usize = 91;

pub const VERSION_AT: usize = 92;

pub const MODE_AT: usize = 93;

/// The zeros between the numbers and the headers.
pub const RESERVED_AT: usize = 94;

pub const RESERVED: usize = 34;

/// The headers, and zeros after them.
pub const LIST_AT: usize = 128;

/// Where the headers stand in the text.
pub const TEXT_LIST_AT: usize = LIST_AT - NAMED_AT;

/// Where the sequence stands in the text.
pub const TEXT_SEQUENCE_AT: usize = SEQUENCE_AT - NAMED_AT;
