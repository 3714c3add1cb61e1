//! A list that contracts see as a list.
ghost use Rattle.std.specs.Prelude.{◌≡◌, ◌<◌, List, [], ◌∷◌, ◌++◌, length, OnOk, OnErr, IfOk, slice_get, slice_set};
ghost use Rattle.std.specs.Fn.{CalledAt};
ghost use Rattle.std.specs.List.Retain.{IsFiltered};

use std::alloc::{AllocError, Global};
use std::marker::Model;

/// A list of items, which contracts and definitions see as a list.
#[derive(Debug, Drop)]
pub struct Seq<T> {
    items: Vec<T>,
}

/// A list of bytes.
pub type ByteList = Seq<u8>;

impl<T> Model for Seq<T> {
    ghost Value = { List T };

    ghost view = { λ s. s.items.items };
}

impl<T> Seq<T> {
    /// The empty list.
    pub fn new(alloc: Global) -> Seq<T>
        ensures { result ≡ [] }
    {
        Seq {
            items: Vec::new(alloc),
        }
    }

    /// The list of these items; it takes no memory.
    pub fn from_vec(items: Vec<T>) -> Seq<T>
        ensures { result ≡ items.items }
    {
        Seq { items }
    }

    /// The items as they are; it takes no memory.
    pub fn into_vec(self) -> Vec<T>
        ensures { result.items ≡ self }
    {
        self.items
    }

    pub fn as_slice(&self) -> &[T]
        ensures { result.now ≡ self.now }
    {
        self.items.as_slice()
    }

    pub fn len(&self) -> usize
        ensures { result ≡ length self.now }
    {
        self.items.len()
    }
}

impl<T: Drop> Seq<T> {
    /// Adds an item at the end. An `Err` changes nothing.
    pub fn push(&mut self, item: T) -> Result<(), AllocError>
        ensures ok { OnOk result (self.new ≡ self.old ++ item ∷ []) }
        ensures err { OnErr result (self.new ≡ self.old) }
    {
        self.items.push(item)?;
        Ok(())
    }

    /// Keeps the items at which `f` answers true, in order.
    pub fn retain<F: FnMut(&T) -> bool>(&mut self, f: F)
        requires { F.IsAlwaysCallable f }
        ensures { IsFiltered (CalledAt F.FnMut) f self.old self.new }
    {
        self.items.retain(f);
    }

    /// Lets all items go.
    pub fn clear(&mut self)
        ensures { self.new ≡ [] }
    {
        self.items.clear();
    }
}

impl<T: Copy> Seq<T> {
    /// The item at a place, `None` exactly past the end.
    pub fn get(&self, at: usize) -> Option<T>
        ensures { result ≡ slice_get self.now at }
    {
        self.items.get(at).copied()
    }

    /// Adds these items at the end. An `Err` changes nothing.
    pub fn extend(&mut self, items: &[T]) -> Result<(), AllocError>
        ensures ok { OnOk result (self.new ≡ self.old ++ items.now) }
        ensures err { OnErr result (self.new ≡ self.old) }
    {
        self.items.extend_from_slice(items)?;
        Ok(())
    }

    /// Puts an item in the place of the one that stands there.
    pub fn replace(&mut self, at: usize, item: T)
        requires { at < length self.old }
        ensures { self.new ≡ slice_set self.old at item }
    {
        self.items[at] = item;
    }

    /// A list of the same items.
    pub fn try_clone(&self, alloc: Global) -> Result<Seq<T>, AllocError>
        ensures { IfOk result (λ copy. copy ≡ self.now) }
    {
        Ok(Seq {
            items: Vec::from_slice(alloc, self.items.as_slice())?,
        })
    }
}

impl<T: PartialEq> PartialEq for Seq<T> {
    ghost use Rattle.std.specs.Cmp.Lexicographic.{pointwise, lists_per};

    ghost eq = { λ x y. pointwise T.eq x y };

    ghost laws = { lists_per T.laws };

    fn eq(&self, other: &Self) -> bool {
        self.items.as_slice() == other.items.as_slice()
    }
}

impl<T: Eq> Eq for Seq<T> {
    ghost use Rattle.std.specs.Cmp.Lexicographic.{lists_equiv};

    ghost laws = { lists_equiv T.Eq.laws };
}
