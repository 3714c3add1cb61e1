//! Sizes, places and limits of headers and messages.

/// The bytes of a header.
pub const HEADER_SIZE: usize = 128;

/// Where the bytes begin whose name stands in front of them.
pub const NAMED_AT: usize = 16;

/// Where the op stands in a header.
pub const OP_AT: usize = 88;

/// Where the size of the message stands in its header.
pub const SIZE_AT: usize = 104;

/// The most bytes of a message, with its header.
pub const MESSAGE_MOST: usize = 20_480;

/// The last op of a log.
pub const LAST_OP: u64 = 1 << 62;
