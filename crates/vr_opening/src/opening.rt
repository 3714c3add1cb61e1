//! How a replica finds its Parts again.
ghost use Rattle.std.specs.Prelude.{◌≡◌, ◌<◌, ◌≤◌, ◌+◌, ◌-◌, IfOk, OnOk, Some, length, nat_le, slice_get, slice_set, slice_index_or, drop, ◌^◌, true};
ghost use Rattle.std.specs.List.{list_any};
ghost use Rattle.vr_rules.specs.Opening.{old_part, recover_old, recover_op, recover_parts, old_headers, was_stored, clouded, blank};
ghost use Rattle.vr_header.specs.declared.part.Part.TheVariants.{Nothing};
ghost use Rattle.vr_rules.specs.Steps.{each};
ghost use Rattle.vr_rules.specs.Does.{Does};
ghost use Rattle.vr_disk.specs.Counts.{Caused};
ghost use Rattle.vr_volatile.specs.Ready.{HasWindow, MayLoad};
ghost use Rattle.vr_opening.specs.Finding.{IsOpening, IsOpeningOld, recover_listed, DoesAt, cloud_by, window_end, window_of};

use crate::finding::{is_listed, recover_op};
use std::alloc::Global;
use vr_actions::{Halt, Replica, find_entry};
use vr_disk::{Buffer, SLOTS, SectorDisk};
use vr_header::{Entry, Header, Part};
use vr_msg::Outbox;

// The Part of an op of the checkpoint with this header: `Here` where its entry was found, and else `Lost`.
fn old_part(header: &Header, found: &Option<Entry>) -> Part
    ensures { result ≡ old_part header.now found.now }
{
    match found {
        Some(_) => Part::Here(*header),
        None => Part::Lost(*header),
    }
}

// Whether an entry was stored, readable or not: `true` of `Here` and `Lost` alone.
fn was_stored(part: &Part) -> bool
    ensures { result ≡ was_stored part.now }
{
    match part {
        Part::Here(_) | Part::Lost(_) => true,
        Part::Wanted(_) | Part::Unknown | Part::Nothing => false,
    }
}

// Looks for the entry of this header, whose op is at most the checkpoint: its Part is `Here` where its slot has it, and else `Lost`. Nothing is
// written or put out. After `Ok` one header more of the value's list is done, and the saved value is as it was.
#[tactic(auto, using(crate::proofs::Olds::old_then, crate::proofs::Olds::old_window, crate::proofs::Olds::opening_old, vr_rules::proofs::Stepping::does_no_memory))]
fn recover_old<D: SectorDisk>(
    replica: &mut Replica,
    alloc: Global,
    disk: &mut D,
    i: usize,
    header: &Header,
    _out: &mut Outbox,
) -> Result<(), Halt>
    requires opening { IsOpeningOld i replica.old }
    requires header { slice_get replica.old.saved.headers i ≡ Some header.now }
    requires low { header.now.op ≤ replica.old.saved.fields.checkpoint }
    ensures opening { OnOk result (IsOpeningOld (i + 1) replica.new) }
    ensures saved { OnOk result (replica.new.saved ≡ replica.old.saved) }
    ensures cause { Caused (D.faults disk.old) (D.faults disk.new) result }
    ensures step { Does (recover_old header.now) replica.old replica.new (D.told disk.old) (D.told disk.new) _out.old _out.new result }
{
    let found = find_entry(replica, alloc, disk, header)?;
    let part = old_part(header, &found);
    replica.put_part(header.op, part);
    Ok(())
}

// Whether the op of a header is at most the checkpoint of the value.
fn is_old(replica: &Replica, header: &Header) -> bool
    ensures { result ≡ nat_le header.now.op replica.now.saved.fields.checkpoint }
{
    header.op <= replica.saved().fields().checkpoint
}

// How many headers the value names.
fn header_count(replica: &Replica) -> usize
    ensures { result ≡ length replica.now.saved.headers }
{
    replica.saved().headers().len()
}

// The header at this place of the value's list.
fn named(replica: &Replica, i: usize) -> Header
    requires { i < length replica.now.saved.headers }
    ensures { slice_get replica.now.saved.headers i ≡ Some result }
{
    replica.saved().headers()[i]
}

// The op at this place of the window, whose place 0 is the op after the checkpoint.
#[tactic(auto, using(crate::proofs::Olds::nth_fits))]
fn op_at(replica: &Replica, i: u64) -> u64
    requires opening { IsOpening (replica.now.saved.fields.checkpoint + i) replica.now }
    requires within { i < SLOTS }
    ensures { result ≡ replica.now.saved.fields.checkpoint + 1 + i }
{
    replica.saved().fields().checkpoint + 1 + i
}

// Where the op of this header is at most the checkpoint, its Part is `Here` where its slot has its entry, and else `Lost`. Any other header is passed
// over, and the replica stays. Nothing is written or put out. After `Ok` one header more of the value's list is done, and the saved value is as it
// was.
#[tactic(auto, using(vr_rules::proofs::Stepping::does_quiet, crate::proofs::Olds::old_skipped))]
fn recover_listed<D: SectorDisk>(
    replica: &mut Replica,
    alloc: Global,
    disk: &mut D,
    i: usize,
    header: &Header,
    out: &mut Outbox,
) -> Result<(), Halt>
    requires opening { IsOpeningOld i replica.old }
    requires header { slice_get replica.old.saved.headers i ≡ Some header.now }
    ensures opening { OnOk result (IsOpeningOld (i + 1) replica.new) }
    ensures saved { OnOk result (replica.new.saved ≡ replica.old.saved) }
    ensures cause { Caused (D.faults disk.old) (D.faults disk.new) result }
    ensures step { Does (recover_listed replica.old.saved header.now) replica.old replica.new (D.told disk.old) (D.told disk.new) out.old out.new result }
{
    if is_old(replica, header) {
        recover_old(replica, alloc, disk, i, header, out)
    } else {
        Ok(())
    }
}

// Takes the header at this place of the value's list. Where its op is at most the checkpoint, its Part is `Here` where its slot has its entry, and
// else `Lost`; otherwise the replica stays. Nothing is written or put out. After `Ok` one header more of the list is done, and the saved value is as
// it was.
#[tactic(auto, using(crate::proofs::Olds::one_header))]
fn recover_at<D: SectorDisk>(
    replica: &mut Replica,
    alloc: Global,
    disk: &mut D,
    i: usize,
    out: &mut Outbox,
) -> Result<(), Halt>
    requires opening { IsOpeningOld i replica.old }
    requires within { i < length replica.old.saved.headers }
    ensures opening { OnOk result (IsOpeningOld (i + 1) replica.new) }
    ensures saved { OnOk result (replica.new.saved ≡ replica.old.saved) }
    ensures cause { Caused (D.faults disk.old) (D.faults disk.new) result }
    ensures step { DoesAt (recover_listed replica.old.saved) replica.old.saved.headers i replica.old replica.new (D.told disk.old) (D.told disk.new) out.old out.new result }
{
    let header = named(replica, i);
    recover_listed(replica, alloc, disk, i, &header, out)
}

// Takes each header that the value names, in order, whose op is at most the checkpoint: its Part is `Here` where its slot has its entry, and else
// `Lost`. Nothing is written or put out. After `Ok` the Parts up to the checkpoint are found, and the saved value is as it was.
#[tactic(auto, using(vr_rules::proofs::Stepping::going_begins))]
fn recover_olds<D: SectorDisk>(
    replica: &mut Replica,
    alloc: Global,
    disk: &mut D,
    out: &mut Outbox,
) -> Result<(), Halt>
    requires opening { IsOpeningOld 0 replica.old }
    ensures opening { OnOk result (IsOpening replica.old.saved.fields.checkpoint replica.new) }
    ensures saved { OnOk result (replica.new.saved ≡ replica.old.saved) }
    ensures cause { Caused (D.faults disk.old) (D.faults disk.new) result }
    ensures step { Does (each recover_old (old_headers replica.old.saved)) replica.old replica.new (D.told disk.old) (D.told disk.new) out.old out.new result }
{
    let count = header_count(replica);
    for i in 0..count {
        match recover_at(replica, alloc, disk, i, out) {
            Ok(()) => {}
            Err(halt) => return Err(halt),
        }
    }
    Ok(())
}

// Finds the op at this place of the window. It is `Here` where its slot's prepare is its entry; a header sector that doesn't fit beside that is first
// written again, and synced. Else it is `Lost`, `Wanted`, `Nothing` or `Unknown`, by the table of `verdict`, and nothing is written. Nothing is put
// out. After `Ok` the Parts up to this op are found, and the saved value is as it was.
#[tactic(auto, using(crate::proofs::Olds::nth_before, crate::proofs::Olds::nth_after, crate::proofs::Olds::nth_step, crate::proofs::Olds::nth_fits))]
fn recover_nth<D: SectorDisk>(
    replica: &mut Replica,
    disk: &mut D,
    i: u64,
    buffer: &mut Buffer,
    out: &mut Outbox,
) -> Result<(), Halt>
    requires opening { IsOpening (replica.old.saved.fields.checkpoint + i) replica.old }
    requires within { i < SLOTS }
    ensures opening { OnOk result (IsOpening (replica.old.saved.fields.checkpoint + (i + 1)) replica.new) }
    ensures saved { OnOk result (replica.new.saved ≡ replica.old.saved) }
    ensures cause { Caused (D.faults disk.old) (D.faults disk.new) result }
    ensures step { DoesAt (recover_op replica.old.saved) (window_of replica.old.saved) i replica.old replica.new (D.told disk.old) (D.told disk.new) out.old out.new result }
{
    let op = op_at(replica, i);
    recover_op(replica, disk, op, buffer, out)
}

// Finds the 64 ops above the checkpoint, ascending. One is `Here` where its slot's prepare is its entry; a header sector that doesn't fit beside that
// is first written again, and synced. Else it is `Lost`, `Wanted`, `Nothing` or `Unknown`, by the table of `verdict`. Nothing is put out; a fault
// ends it, and no slot after it is written. After `Ok` all Parts of the window are found, and the saved value is as it was.
#[tactic(auto, using(vr_rules::proofs::Stepping::going_begins, vr_rules::proofs::Stepping::going_ends, crate::proofs::Olds::ops_begin, crate::proofs::Olds::window_length))]
fn recover_window<D: SectorDisk>(
    replica: &mut Replica,
    disk: &mut D,
    buffer: &mut Buffer,
    out: &mut Outbox,
) -> Result<(), Halt>
    requires opening { IsOpening replica.old.saved.fields.checkpoint replica.old }
    ensures opening { OnOk result (IsOpening (window_end replica.old.saved) replica.new) }
    ensures saved { OnOk result (replica.new.saved ≡ replica.old.saved) }
    ensures cause { Caused (D.faults disk.old) (D.faults disk.new) result }
    ensures step { Does (each (recover_op replica.old.saved) (window_of replica.old.saved)) replica.old replica.new (D.told disk.old) (D.told disk.new) out.old out.new result }
{
    for i in 0..SLOTS as u64 {
        match recover_nth(replica, disk, i, buffer, out) {
            Ok(()) => {}
            Err(halt) => return Err(halt),
        }
    }
    Ok(())
}

// Finds the 64 ops above the checkpoint, ascending, with a buffer of its own to read into. One is `Here` where its slot's prepare is its entry; a
// header sector that doesn't fit beside that is first written again, and synced. Else it is `Lost`, `Wanted`, `Nothing` or `Unknown`, by the table of
// `verdict`. Nothing is put out. After `Ok` all Parts of the window are found, and the saved value is as it was.
#[tactic(auto, using(vr_rules::proofs::Stepping::does_no_memory))]
fn recover_ops<D: SectorDisk>(
    replica: &mut Replica,
    alloc: Global,
    disk: &mut D,
    out: &mut Outbox,
) -> Result<(), Halt>
    requires opening { IsOpening replica.old.saved.fields.checkpoint replica.old }
    ensures opening { OnOk result (IsOpening (window_end replica.old.saved) replica.new) }
    ensures saved { OnOk result (replica.new.saved ≡ replica.old.saved) }
    ensures cause { Caused (D.faults disk.old) (D.faults disk.new) result }
    ensures step { Does (each (recover_op replica.old.saved) (window_of replica.old.saved)) replica.old replica.new (D.told disk.old) (D.told disk.new) out.old out.new result }
{
    let mut buffer = Buffer::new(alloc)?;
    recover_window(replica, disk, &mut buffer, out)
}

// Whether the Part at this place is `Here` or `Lost`, so that something is stored; past the last place it is `false`.
#[tactic(auto, using(vr_window::proofs::Lists::past_is, vr_window::proofs::Lists::found_is))]
fn is_stored(replica: &Replica, at: usize) -> bool
    ensures { result ≡ was_stored (slice_index_or replica.now.parts at Nothing) }
{
    match replica.parts().item(at) {
        Some(part) => was_stored(part),
        None => false,
    }
}

// Whether any Part from this place on is `Here` or `Lost`; from past the last place none is.
#[tactic(auto, using(crate::proofs::Clouds::any_more, crate::proofs::Clouds::any_found, crate::proofs::Clouds::any_past))]
fn is_stored_from(replica: &Replica, at: usize) -> bool
    ensures { result ≡ list_any was_stored (drop at replica.now.parts) }
{
    for i in at..replica.parts().len() {
        if is_stored(replica, i) {
            return true;
        }
    }
    false
}

// The Part that this place is to have. A `Nothing` above the value's head is `Unknown` where a later place has `Here` or `Lost`: an entry may have
// been stored there, too. Each other Part stays, and so do all up to the head.
fn cloud_by(replica: &Replica, at: usize) -> Part
    requires fits { replica.now.first + at < 2 ^ 63 }
    ensures { result ≡ cloud_by replica.now.saved replica.now.first replica.now.parts at }
{
    let part = replica.parts().get_or(at, Part::Nothing);
    if is_listed(replica, replica.first() + at as u64) {
        part
    } else {
        match part {
            Part::Nothing => {
                if is_stored_from(replica, at + 1) {
                    Part::Unknown
                } else {
                    Part::Nothing
                }
            }
            _ => part,
        }
    }
}

// How many ops are remembered.
fn places(replica: &Replica) -> usize
    ensures { result ≡ length replica.now.parts }
{
    replica.parts().len()
}

// Makes the Part at this place `Unknown`, where it is `Nothing`, its op is above the value's head, and a later place has `Here` or `Lost`. Else it
// stays; all else of the replica stays.
fn cloud_one(replica: &mut Replica, at: usize)
    requires fits { replica.old.first + at < 2 ^ 63 }
    requires within { at < length replica.old.parts }
    ensures { replica.new ≡ record replica.old { parts = slice_set replica.old.parts at (cloud_by replica.old.saved replica.old.first replica.old.parts at) } }
{
    let part = cloud_by(replica, at);
    replica.replace_part(at, part);
}

// Makes each Part `Unknown` that is `Nothing`, of an op above the value's head and below one that is `Here` or `Lost`. So nothing is denied there.
// All else of the replica stays.
#[tactic(auto, using(crate::proofs::Clouds::cloud_none, crate::proofs::Clouds::cloud_more, crate::proofs::Clouds::cloud_all, crate::proofs::Clouds::cloud_room, crate::proofs::Clouds::cloud_within, crate::proofs::Clouds::cloud_saved))]
fn cloud(replica: &mut Replica)
    requires { HasWindow replica.old }
    ensures clouded { replica.new ≡ clouded replica.old.saved replica.old }
    ensures saved { replica.new.saved ≡ replica.old.saved }
{
    for i in 0..places(replica) {
        cloud_one(replica, i);
    }
}

/// Finds its Parts again. An op up to the checkpoint that the value names is `Here` where its slot has the entry, and else `Lost`, without a write.
/// Then come the window's, with header sectors written again where needed. Then each `Nothing` above the value's head and below a `Here` or `Lost`
/// becomes `Unknown`, and ops 64 or more below the head are forgotten. Nothing is put out; after `Ok` it is ready, with nothing applied above its
/// checkpoint, and the saved value is as it was.
#[tactic(auto, using(crate::proofs::Clouds::parts_then, crate::proofs::Clouds::parts_stopped, crate::proofs::Clouds::parts_halted, crate::proofs::Clouds::window_opening, crate::proofs::Clouds::window_clouded, crate::proofs::Clouds::opened_ready))]
pub fn recover_parts<D: SectorDisk>(
    replica: &mut Replica,
    alloc: Global,
    disk: &mut D,
    out: &mut Outbox,
) -> Result<(), Halt>
    requires opening { IsOpeningOld 0 replica.old }
    ensures opened { OnOk result (MayLoad replica.new) }
    ensures saved { OnOk result (replica.new.saved ≡ replica.old.saved) }
    ensures cause { Caused (D.faults disk.old) (D.faults disk.new) result }
    ensures step { Does (recover_parts replica.old.saved) replica.old replica.new (D.told disk.old) (D.told disk.new) out.old out.new result }
{
    recover_olds(replica, alloc, disk, out)?;
    recover_ops(replica, alloc, disk, out)?;
    cloud(replica);
    replica.forget();
    Ok(())
}
