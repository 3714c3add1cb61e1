//! The places of a disk, one after the other: the slots, the superblock, the checkpoint's blocks; and the blocks that were found bad.
ghost use Rattle.std.specs.Prelude.{◌≡◌, ◌<◌, ◌^◌, ◌==◌, OnOk, length, map, slice_get};
ghost use Rattle.std.specs.List.{list_any};
ghost use Rattle.vr_ckpt.specs.declared.table.Payload.{Payload};
ghost use Rattle.vr_volatile.specs.Ready.{IsReady};
ghost use Rattle.vr_volatile.specs.Worn.{is_new};
ghost use Rattle.vr_rules.specs.Words.{blocks_of, op_of_slot, place_now, places, with_cursor, with_worn};

use crate::Replica;
use std::alloc::AllocError;
use vr_ckpt::{Name, Payload};
use vr_disk::{BLOCKS, SLOTS};

// Whether a block of this address is among these.
fn has_address(names: &[Name], address: u64) -> bool
    ensures { result ≡ list_any (λ name. name.address == address) names.now }
{
    names.iter().any(|name| name.address == address)
}

// The name of the payload at a place.
fn name_in(payloads: &[Payload], at: usize) -> Option<Name>
    ensures { result ≡ slice_get (map (λ (p : Payload). p.name) payloads.now) at }
{
    match payloads.get(at) {
        Some(payload) => Some(payload.name),
        None => None,
    }
}

impl Replica {
    // How many blocks the checkpoint has.
    fn block_count(&self) -> u64
        ensures count { result ≡ length (blocks_of self.now) }
        ensures few { result < 2 ^ 62 }
    {
        if self.checkpoint == 0 {
            0
        } else {
            let sessions = self.table.sessions.as_slice().len() as u64;
            let keys = self.table.keys.as_slice().len() as u64;
            1 + sessions + keys
        }
    }

    /// The name of one of the checkpoint's blocks, counted from 0.
    pub fn block_name(&self, at: usize) -> Option<Name>
        ensures { result ≡ slice_get (blocks_of self.now) at }
    {
        if self.checkpoint == 0 {
            return None;
        }
        if at == 0 {
            return Some(self.root);
        }
        let sessions = self.table.sessions.as_slice();
        if at - 1 < sessions.len() {
            name_in(sessions, at - 1)
        } else {
            name_in(self.table.keys.as_slice(), at - 1 - sessions.len())
        }
    }

    // How many places there are: the slots, the superblock, and the checkpoint's blocks.
    fn places(&self) -> u64
        ensures count { result ≡ places self.now }
        ensures few { result < 2 ^ 63 }
    {
        SLOTS as u64 + 1 + self.block_count()
    }

    /// The place that is visited next.
    pub fn place_now(&self) -> u64
        ensures place { result ≡ place_now self.now }
        ensures within { result < places self.now }
        ensures few { result < 2 ^ 63 }
    {
        if self.cursor < self.places() {
            self.cursor
        } else {
            0
        }
    }

    /// The op of the window that has this slot.
    #[tactic(auto, using(crate::proofs::Visits::number_fits))]
    pub fn op_of_slot(&self, slot: u64) -> u64
        requires ready { IsReady self.now }
        requires slot { slot < SLOTS }
        ensures { result ≡ op_of_slot self.now slot }
    {
        let slots = SLOTS as u64;
        self.checkpoint + 1 + (slot + slots - 1 - self.checkpoint % slots) % slots
    }

    /// The place after this one comes next.
    pub fn go_on(&mut self, at: u64)
        requires { at < 2 ^ 63 }
        ensures moved { self.new ≡ with_cursor at self.old }
        ensures view { self.new.view ≡ self.old.view }
        ensures saved { self.new.saved ≡ self.old.saved }
    {
        self.cursor = (at + 1) % self.places();
    }
}

impl Replica {
    // Whether a block is one of the grid, and isn't known as bad.
    fn is_new(&self, name: &Name) -> bool
        ensures { result ≡ is_new name.now self.now }
    {
        name.address < u64::from(BLOCKS) && !has_address(self.worn.as_slice(), name.address)
    }

    /// A block was found bad; one of each address is enough.
    #[tactic(auto, using(crate::proofs::Visits::worn_new, crate::proofs::Visits::worn_old))]
    pub fn add_worn(&mut self, name: Name) -> Result<(), AllocError>
        ensures worn { OnOk result (self.new ≡ with_worn name self.old) }
        ensures view { self.new.view ≡ self.old.view }
        ensures saved { self.new.saved ≡ self.old.saved }
    {
        if self.is_new(&name) {
            self.worn.push(name)?;
        }
        Ok(())
    }
}
