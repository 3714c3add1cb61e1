//! How many bytes a prepare has.

/// In a file of version 2, and wherever it is handed out.
pub const PREPARE_SIZE: usize = 4096;

/// In a file of version 1.
pub const OLD_PREPARE_SIZE: usize = 2048;
