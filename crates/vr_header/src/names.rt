//! Headers with their names, so that the header of an entry that is stored is named once.
ghost use Rattle.std.specs.Prelude.{◌≡◌, ◌<◌, ◌%◌, IfOk, IfSome, None, Some, replicate, slice_set};
ghost use Rattle.vr_header.specs.Names.{header_name};

use crate::Header;
use std::alloc::{AllocError, Global};
use std::marker::Model;
use vr_base::Sum;

/// How many headers are kept: one for each slot of a data file.
const SLOTS: usize = 64;

/// A header with its name. Contracts see the header.
#[derive(Drop)]
pub struct Named {
    header: Header,
    name: Sum,
}

impl Model for Named {
    ghost use Rattle.std.specs.Prelude.{◌≡◌};
    ghost use Rattle.vr_header.specs.declared.header.Header.{Header};
    ghost use Rattle.vr_header.specs.Names.{header_name};

    ghost Value = { Header };

    ghost view = { λ n. n.header };

    ghost invariant = { λ n. n.name ≡ header_name n.header };
}

impl Named {
    fn new(header: Header, name: Sum) -> Named
        requires { name ≡ header_name header }
        ensures { result ≡ header }
    {
        Named { header, name }
    }

    // The name of this header, where it is the one.
    #[tactic(auto, using(crate::proofs::SameHeaders::same_header_is))]
    fn name_of(&self, header: &Header) -> Option<Sum>
        ensures { IfSome result (λ name. name ≡ header_name header.now) }
    {
        if self.header.is(header) {
            Some(self.name)
        } else {
            None
        }
    }
}

/// The headers that were kept last, each in the place of its slot, with their names. Contracts see the headers; only `new` takes memory.
#[derive(Drop)]
pub struct Names {
    slots: Vec<Option<Named>>,
}

impl Model for Names {
    ghost use Rattle.std.specs.Prelude.{◌≡◌, List, Option, length};
    ghost use Rattle.vr_header.specs.declared.header.Header.{Header};

    ghost Value = { List (Option Header) };

    ghost view = { λ n. n.slots.items };

    ghost invariant = { λ n. length n.slots.items ≡ 64 };
}

fn slot_of(header: &Header) -> usize
    ensures value { result ≡ header.now.op % 64 }
    ensures within { result < SLOTS }
{
    (header.op % SLOTS as u64) as usize
}

impl Names {
    /// No headers are kept.
    #[tactic(auto, using(crate::proofs::Places::one_more))]
    pub fn new(alloc: Global) -> Result<Names, AllocError>
        ensures { IfOk result (λ names. names ≡ replicate 64 None) }
    {
        let mut slots = Vec::with_capacity(alloc, SLOTS)?;
        for i in 0..SLOTS {
            let _ = i;
            slots.push(None)?;
        }
        Ok(Names { slots })
    }

    /// Keeps a header with its name, in place of the one in its slot.
    pub fn keep(&mut self, header: &Header, name: Sum)
        requires { name ≡ header_name header.now }
        ensures { self.new ≡ slice_set self.old (header.now.op % 64) (Some header.now) }
    {
        self.slots[slot_of(header)] = Some(Named::new(*header, name));
    }

    /// The kept name of a header, if any.
    pub fn kept(&self, header: &Header) -> Option<Sum>
        ensures { IfSome result (λ name. name ≡ header_name header.now) }
    {
        match self.slots.as_slice().get(slot_of(header)) {
            Some(Some(named)) => named.name_of(header),
            _ => None,
        }
    }

    /// The name of a header: the kept one, or one that is made.
    pub fn name_of(&self, header: &Header) -> Sum
        ensures { result ≡ header_name header.now }
    {
        match self.kept(header) {
            Some(name) => name,
            None => header.name(),
        }
    }
}
