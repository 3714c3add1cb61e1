//! The sectors of a shelf, and those that were written since the last sync.
ghost use Rattle.std.specs.Prelude.{◌≡◌, ◌<◌, ◌≤◌, ◌==◌, ◌++◌, ◌∷◌, [], if◌then◌else◌, false, length, map, IfOk, Some};
ghost use Rattle.std.specs.List.{list_any, All};
ghost use Rattle.std.specs.Vec.{vec_capacity};
ghost use Rattle.vr_disk.specs.DiskState.{IsContent, Sync, Write, after, reads, settle, settled};
ghost use Rattle.vr_mem.specs.Seen.{copies, zero_cell};
ghost use Rattle.vr_embed.specs.Seen.{AreSectors, cell_of, face_of, waiting_of};

use std::alloc::Global;
use vr_replica::{NoMemory, SECTORS, Sector};

/// A sector: what it holds, and what it held before its last write.
#[derive(Clone, Copy)]
pub struct Slot {
    pub truth: Sector,
    pub before: Sector,
}

/// A sector that was written since the last sync, and what it was before that.
#[derive(Clone, Copy)]
pub struct Unsynced {
    pub index: u32,
    pub was: Slot,
}

/// All sectors, and those that a loss of power takes back.
#[derive(Drop)]
pub struct Sectors {
    pub slots: Vec<Slot>,
    pub unsynced: Vec<Unsynced>,
}

fn is_unsynced(index: u32, unsynced: &[Unsynced]) -> bool
    ensures { result ≡ list_any (λ w. w.index == index) unsynced.now }
{
    unsynced.iter().any(|w| w.index == index)
}

// Notes what a sector was before its first write since the last sync.
fn note(unsynced: &mut Vec<Unsynced>, index: u32, was: Slot)
    requires { list_any (λ w. w.index == index) unsynced.old.items ≡ false → length unsynced.old.items < vec_capacity unsynced.old }
    ensures items { unsynced.new.items ≡ (if list_any (λ w. w.index == index) unsynced.old.items then unsynced.old.items else unsynced.old.items ++ record { index = index; was = was } ∷ []) }
    ensures capacity { vec_capacity unsynced.old ≤ vec_capacity unsynced.new }
{
    if !is_unsynced(index, unsynced) {
        unsynced.push(Unsynced { index, was }).unwrap();
    }
}

// Each sector is again what it was.
fn take_back(unsynced: &[Unsynced], slots: &mut [Slot])
    requires { All (λ w. w.index < length slots.old) unsynced.now }
    ensures { map cell_of slots.new ≡ settled 0 (map waiting_of unsynced.now) (map cell_of slots.old) }
{
    for w in unsynced {
        slots[w.index as usize] = w.was;
    }
}

// A sector after a write of these bytes.
fn written(bytes: &[u8], was: &Slot) -> Slot
    requires { length bytes.now ≡ 512 }
    ensures slot { result ≡ record { truth = record { bytes = bytes.now }; before = was.now.truth } }
    ensures content { IsContent bytes.now }
{
    let mut copied = [0; 512];
    copied.copy_from_slice(bytes);
    Slot {
        truth: Sector { bytes: copied },
        before: was.truth,
    }
}

// A sector of zeros that was never written.
#[tactic(auto, unfolding(vr_mem::specs::Seen::copies, vr_mem::specs::Seen::zero_cell))]
fn zero() -> Slot
    ensures { cell_of result ≡ zero_cell }
{
    let zeros = Sector { bytes: [0; 512] };
    Slot {
        truth: zeros,
        before: zeros,
    }
}

// Sectors of zeros.
fn zeros(alloc: Global) -> Result<Vec<Slot>, NoMemory>
    ensures { IfOk result (λ slots. map cell_of slots.items ≡ copies SECTORS zero_cell) }
{
    Ok(vec![in alloc; zero(); SECTORS as usize]?)
}

impl Sectors {
    /// Sectors of zeros, with room for each to be noted.
    pub fn new(alloc: Global) -> Result<Sectors, NoMemory>
        ensures face { IfOk result (λ s. face_of s ≡ record { cells = copies SECTORS zero_cell; waiting = [] }) }
        ensures whole { IfOk result AreSectors }
    {
        Ok(Sectors {
            slots: zeros(alloc)?,
            unsynced: Vec::with_capacity(alloc, SECTORS as usize)?,
        })
    }

    /// What a sector holds.
    pub fn read(&self, index: u32) -> Sector
        requires whole { AreSectors self.now }
        requires index { index < SECTORS }
        ensures { reads (face_of self.now) index ≡ Some result.bytes }
    {
        self.slots[index as usize].truth
    }

    /// It holds this now, until a loss of power takes it back.
    pub fn write(&mut self, index: u32, from: &Sector)
        requires whole { AreSectors self.old }
        requires index { index < SECTORS }
        ensures after { face_of self.new ≡ after (face_of self.old) (Write index from.now.bytes) }
        ensures whole { AreSectors self.new }
    {
        let at = index as usize;
        let was = self.slots[at];
        note(&mut self.unsynced, index, was);
        self.slots[at] = written(&from.bytes, &was);
    }

    /// What was written stays.
    pub fn sync(&mut self)
        requires { AreSectors self.old }
        ensures after { face_of self.new ≡ after (face_of self.old) Sync }
        ensures whole { AreSectors self.new }
    {
        self.unsynced.clear();
    }

    /// What was written since the last sync is lost.
    pub fn lose(&mut self)
        requires { AreSectors self.old }
        ensures after { face_of self.new ≡ settle 0 (face_of self.old) }
        ensures whole { AreSectors self.new }
    {
        take_back(&self.unsynced, &mut self.slots);
        self.unsynced.clear();
    }
}
