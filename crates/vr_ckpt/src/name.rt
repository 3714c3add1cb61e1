//! Names of blocks.

use vr_base::{Seq, Sum};

/// What a block is asked for by: its address in the grid, below 384, and the name of its header.
#[derive(Clone, Copy, Debug, PartialEq, Eq)]
pub struct Name {
    pub address: u64,
    pub sum: Sum,
}

/// Names in order.
pub type NameList = Seq<Name>;
