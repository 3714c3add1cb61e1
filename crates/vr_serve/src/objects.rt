//! The objects of a run.

/// A member, and the disk, the sink and the link that it works on.
#[derive(Drop)]
pub struct Objects<'m, 'd, 'k, 'l, M, D, K, L> {
    pub member: &'m mut M,
    pub disk: &'d mut D,
    pub sink: &'k mut K,
    pub link: &'l mut L,
}
