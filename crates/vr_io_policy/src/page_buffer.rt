//! The bytes of pages that are to be written.
ghost use Rattle.std.specs.Prelude.{◌≡◌, ◌≤◌, ◌*◌, IfOk, length, replicate, take};
ghost use Rattle.vr_io_policy.specs.Caches.{AreWhole, IsReady, bytes_of, pages, waiting};

use crate::cache::SectorCache;
use crate::cached::Cached;
use std::alloc::{AllocError, Global};
use std::marker::Model;
use vr_base::put;
use vr_disk::SECTOR_SIZE;

/// The bytes of nine pages: so many have neighbors of which 64 wait.
const MOST: u32 = 72 * SECTOR_SIZE as u32;

/// Room for the bytes of nine pages.
#[derive(Drop)]
pub struct PageBuffer {
    bytes: Vec<u8>,
}

impl Model for PageBuffer {
    ghost use Rattle.std.specs.Prelude.{◌≡◌, ℕ, List, length};

    ghost Value = { List ℕ };

    ghost view = { λ b. b.bytes.items };

    ghost invariant = { λ b. length b.bytes.items ≡ 36864 };
}

/// So many zeros.
fn zeros(alloc: Global, count: u32) -> Result<Vec<u8>, AllocError>
    ensures { IfOk result (λ v. v.items ≡ replicate count 0) }
{
    let mut bytes = Vec::new(alloc);
    bytes.resize(count as usize, 0)?;
    Ok(bytes)
}

/// Puts what is written to these sectors in front.
fn put_all(out: &mut [u8], sectors: &[Cached])
    requires { 512 * length sectors.now ≤ length out.old }
    ensures bytes { take (512 * length sectors.now) out.new ≡ bytes_of sectors.now }
    ensures whole { AreWhole sectors.now }
{
    for k in 0..sectors.len() {
        put(out, SECTOR_SIZE * k, &sectors[k].bytes());
    }
}

impl PageBuffer {
    /// All its memory is taken here.
    pub fn new(alloc: Global) -> Result<PageBuffer, AllocError>
        ensures { IfOk result (λ b. b ≡ replicate 36864 0) }
    {
        Ok(PageBuffer {
            bytes: zeros(alloc, MOST)?,
        })
    }

    /// The bytes of the pages in which some sectors wait.
    pub fn gather(&mut self, cache: &SectorCache) -> &[u8]
        requires { IsReady cache.now }
        ensures bytes { result.now ≡ bytes_of (pages cache.now) }
        ensures whole { AreWhole (pages cache.now) }
    {
        let pages = cache.pages();
        put_all(self.bytes.as_mut_slice(), pages);
        &self.bytes[..SECTOR_SIZE * pages.len()]
    }

    /// The bytes of those that wait.
    pub fn gather_waiting(&mut self, cache: &SectorCache) -> &[u8]
        ensures bytes { result.now ≡ bytes_of (waiting cache.now) }
        ensures whole { AreWhole (waiting cache.now) }
    {
        let waiting = cache.waiting();
        put_all(self.bytes.as_mut_slice(), waiting);
        &self.bytes[..SECTOR_SIZE * waiting.len()]
    }
}
