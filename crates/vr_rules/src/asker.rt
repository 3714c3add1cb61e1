//! Who asked.

use vr_base::Sum;

/// Who asked: a request's client and number, and the name of its header.
#[derive(Clone, Copy, Debug, PartialEq, Eq)]
pub struct Asker {
    pub client: u64,
    pub request: u32,
    pub name: Sum,
}
