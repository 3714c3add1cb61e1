//! The link between the members.
ghost use Rattle.std.specs.Prelude.{◌≡◌, ◌+◌, ◌≤◌, ◌++◌, ◌∷◌, [], IfOk, OnOk, if◌then◌else◌, is_some, length, min, slice_get};
ghost use Rattle.std.specs.Option.{option_copied};

use std::alloc::{AllocError, Global};
use vr_replica::{Sent, Seq};

/// All letters in the order in which they were sent, and which one comes next. One that is passed over is lost.
#[derive(Drop)]
pub struct Link {
    pub letters: Seq<Sent>,
    pub next: usize,
    ghost within: { next ≤ length letters },
}

// The letter at a place.
fn letter_at(letters: &Seq<Sent>, at: usize) -> Option<&Sent>
    ensures { option_copied result ≡ slice_get letters.now at }
{
    letters.as_slice().get(at)
}

// A copy of a letter.
fn copied(alloc: Global, letter: &Sent) -> Result<Sent, AllocError>
    ensures { IfOk result (λ copy. copy ≡ letter.now) }
{
    Ok(Sent {
        from: letter.from,
        to: letter.to,
        message: letter.message.try_clone(alloc)?,
    })
}

// The letter at a place, copied.
fn letter_copied(alloc: Global, letters: &Seq<Sent>, at: usize) -> Result<Option<Sent>, AllocError>
    ensures { IfOk result (λ copy. copy ≡ slice_get letters.now at) }
{
    match letter_at(letters, at) {
        None => Ok(None),
        Some(letter) => Ok(Some(copied(alloc, letter)?)),
    }
}

impl Link {
    /// No letter yet.
    pub fn new(alloc: Global) -> Link
        ensures letters { result.letters ≡ [] }
        ensures next { result.next ≡ 0 }
    {
        Link {
            letters: Seq::new(alloc),
            next: 0,
        }
    }

    /// The next letter, if there is one.
    pub fn take(&mut self, alloc: Global) -> Result<Option<Sent>, AllocError>
        ensures letter { IfOk result (λ taken. taken ≡ slice_get self.old.letters self.old.next) }
        ensures letters { self.new.letters ≡ self.old.letters }
        ensures next { IfOk result (λ taken. self.new.next ≡ (if is_some taken then self.old.next + 1 else self.old.next)) }
        ensures least { self.old.next ≤ self.new.next }
        ensures most { self.new.next ≤ self.old.next + 1 }
    {
        if self.next < self.letters.len() {
            let taken = letter_copied(alloc, &self.letters, self.next)?;
            self.next += 1;
            return Ok(taken);
        }
        Ok(None)
    }

    /// The next letter is lost.
    pub fn lose(&mut self)
        ensures letters { self.new.letters ≡ self.old.letters }
        ensures next { self.new.next ≡ min (self.old.next + 1) (length self.old.letters) }
        ensures least { self.old.next ≤ self.new.next }
    {
        if self.next < self.letters.len() {
            self.next += 1;
        }
    }

    /// One letter more.
    pub fn carry(&mut self, letter: Sent) -> Result<(), AllocError>
        ensures letters { OnOk result (self.new.letters ≡ self.old.letters ++ letter ∷ []) }
        ensures next { self.new.next ≡ self.old.next }
    {
        self.letters.push(letter)
    }
}
