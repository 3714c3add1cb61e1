//! What a sector in memory holds.
ghost use Rattle.std.specs.Prelude.{◌≡◌, ◌<◌, bytes_eq, length};
ghost use Rattle.vr_base.specs.Bytes.{IsBytes, is_zeros};
ghost use Rattle.vr_disk.specs.DiskState.{IsContent, damaged};
ghost use Rattle.vr_mem.specs.Seen.{bytes_of, mark_of, marked};

use vr_base::is_zeros;
use vr_disk::{Sector, ZEROS};

/// Whether bytes are a content itself, or stand for one that is still to be made.
#[derive(Clone, Copy, PartialEq, Eq)]
pub enum Mark {
    /// The content itself.
    Plain,
    /// They stand for another content.
    Owed,
}

/// What a sector may hold. Zeros are only noted, since most sectors that are written are zeros: then what stands in `mark` and
/// `sector` means nothing.
#[derive(Clone, Copy)]
pub struct MemBytes {
    pub zeros: bool,
    pub mark: Mark,
    pub sector: Sector,
}

fn damage_all(bytes: &mut [u8])
    ensures damaged { bytes.new ≡ damaged bytes.old }
    ensures each { IsBytes bytes.old }
{
    for i in 0..bytes.len() {
        bytes[i] = bytes[i] ^ 255;
    }
}

/// A sector with every bit turned.
pub fn damage(sector: &Sector) -> Sector
    ensures damaged { result.bytes ≡ damaged sector.now.bytes }
    ensures content { IsContent sector.now.bytes }
{
    let mut out = *sector;
    damage_all(&mut out.bytes);
    out
}

/// Whether bytes with this mark are zeros.
pub fn are_zeros(mark: Mark, bytes: &[u8]) -> bool
    requires { 0 < length bytes.now }
    ensures { result ≡ is_zeros (marked mark bytes.now) }
{
    mark == Mark::Plain && is_zeros(bytes)
}

// Whether these bytes are those, and so are their marks.
fn is_same(mark: Mark, bytes: &[u8], other_mark: Mark, other: &[u8]) -> bool
    requires { 0 < length bytes.now }
    ensures { result ≡ bytes_eq (marked mark bytes.now) (marked other_mark other.now) }
{
    mark == other_mark && bytes == other
}

impl MemBytes {
    /// Whether they are the content itself.
    pub fn mark(&self) -> Mark
        ensures { result ≡ mark_of self.now }
    {
        if self.zeros { Mark::Plain } else { self.mark }
    }

    /// The bytes, without their mark.
    #[tactic(auto, unfolding(crate::specs::Seen::bytes_of, crate::specs::Seen::copies))]
    pub fn raw(&self) -> &Sector
        ensures { bytes_of self.now ≡ marked (mark_of self.now) result.now.bytes }
    {
        if self.zeros { &ZEROS } else { &self.sector }
    }

    /// Whether these are the bytes, with this mark.
    pub fn is(&self, mark: Mark, bytes: &[u8]) -> bool
        requires { length bytes.now ≡ 512 }
        ensures { result ≡ bytes_eq (marked mark bytes.now) (bytes_of self.now) }
    {
        is_same(mark, bytes, self.mark(), &self.raw().bytes)
    }

    /// Holds these bytes with this mark from now on.
    #[tactic(auto, unfolding(crate::specs::Seen::bytes_of))]
    pub fn set(&mut self, mark: Mark, bytes: &[u8])
        requires { length bytes.now ≡ 512 }
        ensures { bytes_of self.new ≡ marked mark bytes.now }
    {
        self.zeros = are_zeros(mark, bytes);
        if self.zeros {
            return;
        }
        self.mark = mark;
        self.sector.bytes.copy_from_slice(bytes);
    }

    /// Holds from now on what the other holds.
    #[tactic(auto, unfolding(crate::specs::Seen::bytes_of))]
    pub fn take_from(&mut self, from: &MemBytes)
        ensures { bytes_of self.new ≡ bytes_of from.now }
    {
        self.zeros = from.zeros;
        if !from.zeros {
            self.mark = from.mark;
            self.sector = from.sector;
        }
    }
}
