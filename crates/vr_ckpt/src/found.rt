//! What a disk has of a checkpoint.

use crate::{NameList, PayloadTable};
use vr_state::Texts;

/// What a disk has of a checkpoint.
#[derive(Drop)]
pub enum Load {
    /// The texts and the table of their blocks.
    Loaded(Texts, PayloadTable),
    /// The names of the faulty blocks, at least one: the root alone, or data blocks in order.
    Missing(NameList),
}
