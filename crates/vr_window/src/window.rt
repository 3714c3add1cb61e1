//! A list of at most 128 items, in one block that is made once.
ghost use Rattle.std.specs.Prelude.{◌≡◌, ◌<◌, ◌≤◌, ◌+◌, ◌++◌, ◌∷◌, [], IfOk, List, drop, length, replicate, slice_get, slice_index_or, slice_set};
ghost use Rattle.std.specs.Option.{option_copied};

use circular_buffer::HeapCircularBuffer;
use std::alloc::{AllocError, Global};
use std::marker::Model;

/// A list of at most 128 items, which contracts see as a list. Items come in at the end and go from the front; only `new` and `full` take memory.
#[derive(Drop)]
pub struct Window<T> {
    items: HeapCircularBuffer<T>,
}

impl<T> Model for Window<T> {
    ghost use Rattle.std.specs.Prelude.{◌≡◌, List};

    ghost Value = { List T };

    ghost view = { λ w. w.items.items };

    ghost invariant = { λ w. w.items.capacity ≡ 128 };
}

impl<T> Window<T> {
    /// The empty list, with room for 128 items.
    pub(crate) fn new(alloc: Global) -> Result<Window<T>, AllocError>
        ensures { IfOk result (λ w. w ≡ []) }
    {
        let items = HeapCircularBuffer::with_capacity(alloc, 128)?;
        Ok(Window { items })
    }

    /// How many items it has, at most 128.
    pub fn len(&self) -> usize
        ensures len { result ≡ length self.now }
        ensures within { result ≤ 128 }
    {
        self.items.len()
    }

    /// The item at a place where it stands, `None` exactly past the end.
    pub fn item(&self, at: usize) -> Option<&T>
        ensures { option_copied result ≡ slice_get self.now at }
    {
        self.items.get(at)
    }
}

impl<T: Drop> Window<T> {
    /// Puts an item in the place of the one that stands there.
    pub fn replace(&mut self, at: usize, item: T)
        requires { at < length self.old }
        ensures { self.new ≡ slice_set self.old at item }
    {
        match self.items.get_mut(at) {
            Some(place) => *place = item,
            None => {}
        }
    }

    /// Adds an item at the end.
    #[tactic(auto, using(crate::proofs::Lists::all_kept))]
    pub fn push(&mut self, item: T)
        requires { length self.old < 128 }
        ensures { self.new ≡ self.old ++ item ∷ [] }
    {
        self.items.push_back(item);
    }

    /// Lets so many items go from the front.
    #[tactic(auto, using(crate::proofs::Lists::last_kept))]
    pub fn forget(&mut self, count: usize)
        ensures { self.new ≡ drop count self.old }
    {
        let left = self.len().saturating_sub(count);
        self.items.truncate_front(left);
    }
}

impl<T: Copy + Drop> Window<T> {
    /// The item at a place, or another one past the end.
    #[tactic(auto, using(crate::proofs::Lists::past_is, crate::proofs::Lists::found_is))]
    pub fn get_or(&self, at: usize, other: T) -> T
        ensures { result ≡ slice_index_or self.now at other }
    {
        match self.items.get(at) {
            Some(item) => *item,
            None => other,
        }
    }

    /// The list that has an item so many times, with room for 128 items.
    pub fn full(alloc: Global, item: T, count: usize) -> Result<Window<T>, AllocError>
        requires { count ≤ 128 }
        ensures { IfOk result (λ w. w ≡ replicate count item) }
    {
        let mut window = Window::new(alloc)?;
        window.extend(item, count);
        Ok(window)
    }

    /// Adds an item so many times at the end.
    #[tactic(auto, using(crate::proofs::Lists::more_none, crate::proofs::Lists::more_one, crate::proofs::Lists::more_length))]
    pub fn extend(&mut self, item: T, count: usize)
        requires { length self.old + count ≤ 128 }
        ensures { self.new ≡ self.old ++ replicate count item }
    {
        for i in 0..count {
            let _ = i;
            self.push(item);
        }
    }

    /// Puts this item in the place of all.
    #[tactic(auto, using(crate::proofs::Lists::fill_more, crate::proofs::Lists::fill_ends, crate::proofs::Lists::fill_length))]
    pub fn fill(&mut self, item: T)
        ensures { self.new ≡ replicate (length self.old) item }
    {
        for i in 0..self.len() {
            self.replace(i, item);
        }
    }
}
