//! A place for each replica of a group.
ghost use Rattle.std.specs.Prelude.{◌≡◌, ◌<◌, ◌≤◌, ◌+◌, ◌++◌, IfOk, List, None, Option, Some, length, replicate, slice_set, drop};

use std::alloc::{AllocError, Global};
use std::marker::Model;

/// A place for an item of each replica of a group, which may be empty. Contracts see it as a list; only `new` takes memory.
#[derive(Drop)]
pub struct Places<T> {
    items: Vec<Option<T>>,
}

impl<T> Model for Places<T> {
    ghost use Rattle.std.specs.Prelude.{List, Option};

    ghost Value = { List (Option T) };

    ghost view = { λ p. p.items.items };
}

impl<T> Places<T> {
    /// How many places there are.
    pub fn len(&self) -> usize
        ensures { result ≡ length self.now }
    {
        self.items.len()
    }

    /// The places in order.
    pub fn as_slice(&self) -> &[Option<T>]
        ensures { result.now ≡ self.now }
    {
        self.items.as_slice()
    }
}

impl<T: Drop> Places<T> {
    /// So many empty places.
    #[tactic(auto, using(crate::proofs::Lists::more_none, crate::proofs::Lists::more_one, crate::proofs::Lists::places_more))]
    pub fn new(alloc: Global, count: u8) -> Result<Places<T>, AllocError>
        ensures { IfOk result (λ p. p ≡ replicate count None) }
    {
        let mut items = Vec::new(alloc);
        for i in 0..count {
            let _ = i;
            items.push(None)?;
        }
        Ok(Places { items })
    }

    /// Puts an item into a place.
    pub fn put(&mut self, at: usize, item: T)
        requires { at < length self.old }
        ensures { self.new ≡ slice_set self.old at (Some item) }
    {
        self.items[at] = Some(item);
    }

    /// Empties all places.
    #[tactic(auto, using(crate::proofs::Lists::fill_more, crate::proofs::Lists::fill_ends, crate::proofs::Lists::fill_length))]
    pub fn clear(&mut self)
        ensures { self.new ≡ replicate (length self.old) None }
    {
        for i in 0..self.len() {
            self.empty(i);
        }
    }

    // Empties a place.
    fn empty(&mut self, at: usize)
        requires { at < length self.old }
        ensures { self.new ≡ slice_set self.old at None }
    {
        self.items[at] = None;
    }
}
