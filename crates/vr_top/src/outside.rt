//! The objects that a run is handed, as one.

/// Each of them by a reference of its own lifetime: of more than two that share one the proof doesn't know whose they are.
#[derive(Drop)]
pub struct Outside<'s, 'k, 'd, 'l, 'c, 'p, S, K, D, L, C, P> {
    pub source: &'s mut S,
    pub sink: &'k mut K,
    pub disk: &'d mut D,
    pub link: &'l mut L,
    pub clock: &'c mut C,
    pub spawner: &'p mut P,
}
