//! The name by which a disk in memory was attached.
ghost use Rattle.std.specs.Prelude.{◌≡◌, ◌≤◌, None, Some, IfOk, length, vec_capacity};
ghost use Rattle.vr_disk.specs.DiskState.{name_most};

use std::alloc::{AllocError, Global};
use vr_disk::NAME_MOST;

/// The name by which a disk was attached last, in room that is made at first.
#[derive(Drop)]
pub struct DiskName {
    is_given: bool,
    bytes: Vec<u8>,
    ghost made: { name_most ≤ vec_capacity bytes },
}

impl DiskName {
    ghost use Rattle.vr_mem.specs.Calls.{name_given};

    /// That of a disk that wasn't attached yet.
    pub fn none(alloc: Global) -> Result<DiskName, AllocError>
        ensures { IfOk result (λ n. name_given n ≡ None) }
    {
        Ok(DiskName {
            is_given: false,
            bytes: Vec::with_capacity(alloc, NAME_MOST)?,
        })
    }

    /// From now on it is this one.
    pub fn set(&mut self, name: &[u8])
        requires { length name.now ≤ NAME_MOST }
        ensures { name_given self.new ≡ Some name.now }
    {
        self.bytes.clear();
        self.bytes.extend_from_slice(name).unwrap();
        self.is_given = true;
    }
}
