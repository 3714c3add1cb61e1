//! What a client asks of the machine.
ghost use Rattle.std.specs.Prelude.{◌≡◌, ◌↔◌, IfOk, IsTrue};

use crate::{Key, Value};
use std::alloc::{AllocError, Global};

/// What a client asks of the machine.
#[derive(Debug, PartialEq, Eq)]
pub enum Operation {
    /// A session begins.
    Register,
    Put(Key, Value),
    Get(Key),
    Delete(Key),
}

// By hand, so that a function that lets one go calls this, in place of spelling out each kind.
impl Drop for Operation {
    fn drop(self) {
        match self {
            Operation::Register => {}
            Operation::Put(key, value) => {
                drop(key);
                drop(value);
            }
            Operation::Get(key) | Operation::Delete(key) => drop(key),
        }
    }
}

impl Operation {
    ghost use Rattle.vr_header.specs.declared.operation.Operation.TheVariants as Operation;
    ghost use Rattle.vr_header.specs.Made.{is_register};

    /// Whether it begins a session.
    pub fn is_register(&self) -> bool
        ensures value { result ≡ is_register self.now }
        ensures meaning { IsTrue result ↔ (self.now ≡ Operation.Register) }
    {
        matches!(self, Operation::Register)
    }

    /// A copy of the operation.
    pub fn try_clone(&self, alloc: Global) -> Result<Operation, AllocError>
        ensures { IfOk result (λ copy. copy ≡ self.now) }
    {
        match self {
            Operation::Register => Ok(Operation::Register),
            Operation::Put(key, value) => {
                Ok(Operation::Put(key.try_clone(alloc)?, value.try_clone(alloc)?))
            }
            Operation::Get(key) => Ok(Operation::Get(key.try_clone(alloc)?)),
            Operation::Delete(key) => Ok(Operation::Delete(key.try_clone(alloc)?)),
        }
    }
}
