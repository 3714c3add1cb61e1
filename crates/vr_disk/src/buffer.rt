//! Room for a block or a prepare.
ghost use Rattle.std.specs.Prelude.{◌≡◌, ◌-◌, ◌≤◌, ◌++◌, ℕ, List, drop, length, replicate, IfOk};
ghost use Rattle.vr_disk.specs.Buffers.{IsUsed};

use std::alloc::Global;
use std::marker::Model;
use vr_base::NoMemory;

/// 4,096 bytes.
#[derive(Drop)]
pub struct Buffer {
    bytes: Vec<u8>,

    // So many bytes in front may be something else than zeros.
    used: usize,
}

impl Model for Buffer {
    ghost Value = { List ℕ };

    ghost view = { λ b. b.bytes.items };

    ghost invariant = { λ b. IsUsed b.used b.bytes.items };
}

impl Buffer {
    /// 4,096 zeros, or want of memory.
    pub fn new(alloc: Global) -> Result<Buffer, NoMemory>
        ensures { IfOk result (λ b. length b ≡ 4096) }
    {
        let mut bytes = Vec::new(alloc);
        bytes.resize(4096, 0)?;
        Ok(Buffer { bytes, used: 0 })
    }

    /// Its 4,096 bytes.
    pub fn as_slice(&self) -> &[u8]
        ensures bytes { result.now ≡ self.now }
        ensures size { length result.now ≡ 4096 }
    {
        self.bytes.as_slice()
    }

    /// Puts these 4,096 bytes in the place of all.
    pub fn set(&mut self, bytes: &[u8])
        requires { length bytes.now ≡ 4096 }
        ensures { self.new ≡ bytes.now }
    {
        self.bytes.copy_from_slice(bytes);
        self.used = 4096;
    }

    /// Puts these bytes in the place of all, in front of zeros. It writes only the zeros that aren't there yet.
    pub fn set_front(&mut self, bytes: &[u8])
        requires { length bytes.now ≤ 4096 }
        ensures { self.new ≡ bytes.now ++ replicate (4096 - length bytes.now) 0 }
    {
        fill_front(self.bytes.as_mut_slice(), self.used, bytes);
        self.used = bytes.len();
    }
}

// Zeros in the place of bytes that are zeros from a place on.
fn clear(bytes: &mut [u8], used: usize)
    requires used { used ≤ length bytes.old }
    requires rest { drop used bytes.old ≡ replicate (length bytes.old - used) 0 }
    ensures { bytes.new ≡ replicate (length bytes.old) 0 }
{
    bytes[..used].fill(0);
}

// Puts these bytes in front of zeros, in the place of bytes that are zeros from a place on.
fn fill_front(to: &mut [u8], used: usize, bytes: &[u8])
    requires used { used ≤ length to.old }
    requires rest { drop used to.old ≡ replicate (length to.old - used) 0 }
    requires size { length bytes.now ≤ length to.old }
    ensures { to.new ≡ bytes.now ++ replicate (length to.old - length bytes.now) 0 }
{
    let (front, rest) = to.split_at_mut(bytes.len());
    front.copy_from_slice(bytes);
    clear(rest, used.saturating_sub(bytes.len()));
}
