//! The words of which rules are made.
ghost use Rattle.std.specs.Prelude.{◌≡◌, ◌≤◌, ◌+◌, OnOk};
ghost use Rattle.vr_rules.specs.Words.{save, write, accept, enter, entered, value_of, with_saved};
ghost use Rattle.vr_rules.specs.Outputs.{send_to_all, start_view_change};
ghost use Rattle.vr_rules.specs.Steps.{◌⨾◌, change, says};
ghost use Rattle.vr_rules.specs.Replica.{last_view};
ghost use Rattle.vr_volatile.specs.Ready.{IsReady, MayStore};
ghost use Rattle.vr_actions.specs.Acts.{Acts, Keeps, MayAct, Spends};

use crate::effects::{save_value, write_entry};
use std::alloc::Global;
use vr_disk::{Halt, SectorDisk};
use vr_header::Entry;
use vr_msg::Outbox;
use vr_super::Super;
use vr_volatile::{LAST_VIEW, Replica, is_here};

// Saves this value, which is the present one: copies of the superblock that don't read as the value last saved are mended, then all four
// are written. After `Ok` it is the value last saved, and nothing else of the replica changed; nothing is put out. After an `Err` the disk
// has had its calls up to the stop; of replica and outputs nothing is said.
#[tactic(auto, using(vr_rules::proofs::Stepping::effects, vr_volatile::proofs::Memory::readies), unfolding(vr_rules::specs::Words::save))]
fn save_made<D: SectorDisk>(
    replica: &mut Replica,
    disk: &mut D,
    value: Super,
    _out: &mut Outbox,
) -> Result<(), Halt>
    requires ready { IsReady replica.old }
    requires value { value ≡ value_of replica.old }
    ensures spends { Spends 1 replica.old replica.new result }
    ensures made { OnOk result (replica.new ≡ with_saved replica.old) }
    ensures acts { Acts D.SectorDisk save replica.old replica.new disk.old disk.new _out.old _out.new result }
{
    // Asked for what its type keeps: a value makes a good copy.
    let _fields = value.fields();
    match save_value(replica, disk, value) {
        Ok(()) => Ok(()),
        Err(_) => Err(Halt::DiskFault),
    }
}

/// The superblock takes the present values, with the next sequence number and the known headers that reach the head without a hole. First
/// each copy that doesn't read as the value last saved is mended, then all four are written. After `Ok` only the value last saved has
/// changed (`with_saved`), and nothing was put out. After an `Err` the disk has had its calls up to the stop; of replica and outputs
/// nothing is said.
#[tactic(auto, using(vr_rules::proofs::Stepping::wants))]
pub fn save<D: SectorDisk>(
    replica: &mut Replica,
    alloc: Global,
    disk: &mut D,
    out: &mut Outbox,
) -> Result<(), Halt>
    requires { MayAct 1 replica.old }
    ensures spends { Spends 1 replica.old replica.new result }
    ensures made { OnOk result (replica.new ≡ with_saved replica.old) }
    ensures acts { Acts D.SectorDisk save replica.old replica.new disk.old disk.new out.old out.new result }
{
    let value = replica.value(alloc)?;
    save_made(replica, disk, value, out)
}

/// The entry is written into its slot: header sector first where the Part of its op is `Here`, `Lost` or `Unknown`, else prepare first.
/// Then its Part is `Here`, and ops 64 or more below the head are forgotten; nothing is put out. `MayStore`: its op is in the window, and
/// it was made in the log view or before. After an `Err` the disk has had its calls up to the stop; of replica and outputs nothing is said.
#[tactic(auto, using(vr_rules::proofs::Stepping::effects, vr_volatile::proofs::Memory::window_of, vr_volatile::proofs::Memory::entry_taken, vr_volatile::proofs::Memory::readies), unfolding(vr_rules::specs::Words::write))]
pub fn write<D: SectorDisk>(
    replica: &mut Replica,
    disk: &mut D,
    entry: &Entry,
    _out: &mut Outbox,
) -> Result<(), Halt>
    requires ready { IsReady replica.old }
    requires may { MayStore entry.now replica.old }
    ensures keeps { Keeps replica.old replica.new result }
    ensures acts { Acts D.SectorDisk (write entry.now) replica.old replica.new disk.old disk.new _out.old _out.new result }
{
    write_entry(replica, disk, entry)?;
    replica.store(entry);
    Ok(())
}

/// Where the Part of its op is `Here`, nothing is done, whatever the header there. Else the entry is written into its slot, header sector
/// first where the Part is `Lost` or `Unknown`, else prepare first. Then the Part is `Here`, ops 64 or more below the head are forgotten,
/// and nothing is put out. After an `Err` the disk has had its calls up to the stop; of replica and outputs nothing is said.
#[tactic(auto, using(vr_rules::proofs::Stepping::steps), unfolding(vr_rules::specs::Words::accept))]
pub fn accept<D: SectorDisk>(
    replica: &mut Replica,
    disk: &mut D,
    entry: &Entry,
    out: &mut Outbox,
) -> Result<(), Halt>
    requires ready { IsReady replica.old }
    requires may { MayStore entry.now replica.old }
    ensures keeps { Keeps replica.old replica.new result }
    ensures acts { Acts D.SectorDisk (accept entry.now) replica.old replica.new disk.old disk.new out.old out.new result }
{
    if is_here(&replica.part_at(entry.header().op)) {
        Ok(())
    } else {
        write(replica, disk, entry, out)
    }
}

// In this order: this is the view, with acknowledgements and statements dropped, only itself heard, and idle 0; the replica saves; a
// start_view_change goes to each other replica, ascending. Its log view and its log stay. After an `Err` the disk has had its calls up to
// the stop; of replica and outputs nothing is said.
#[tactic(auto, using(vr_volatile::proofs::Memory::readies, vr_volatile::proofs::Memory::window_of))]
fn enter_now<D: SectorDisk>(
    replica: &mut Replica,
    alloc: Global,
    disk: &mut D,
    view: u32,
    out: &mut Outbox,
) -> Result<(), Halt>
    requires act { MayAct 1 replica.old }
    requires later { replica.old.view ≤ view }
    requires within { view ≤ last_view }
    ensures spent { OnOk result (replica.new.saved.fields.sequence ≤ replica.old.saved.fields.sequence + 1) }
    ensures made { OnOk result (replica.new ≡ with_saved (entered view replica.old)) }
    ensures acts { Acts D.SectorDisk (change (entered view) ⨾ save ⨾ says (send_to_all start_view_change)) replica.old replica.new disk.old disk.new out.old out.new result }
{
    replica.turn_to(view);
    save(replica, alloc, disk, out)?;
    replica.tell_change(out)?;
    Ok(())
}

/// In this order: this is the view, with acknowledgements and statements dropped, only itself heard, and idle 0; the replica saves; a
/// start_view_change goes to each other replica, ascending. Past the last view, 2^32 - 2, only idle becomes 0. Its log view and its log
/// stay. After an `Err` the disk has had its calls up to the stop; of replica and outputs nothing is said.
#[tactic(auto, using(vr_rules::proofs::Stepping::steps, vr_volatile::proofs::Memory::readies), unfolding(vr_rules::specs::Words::enter))]
pub fn enter<D: SectorDisk>(
    replica: &mut Replica,
    alloc: Global,
    disk: &mut D,
    view: u32,
    out: &mut Outbox,
) -> Result<(), Halt>
    requires act { MayAct 1 replica.old }
    requires later { replica.old.view ≤ view }
    ensures spent { OnOk result (replica.new.saved.fields.sequence ≤ replica.old.saved.fields.sequence + 1) }
    ensures made { OnOk result (view ≤ last_view → replica.new ≡ with_saved (entered view replica.old)) }
    ensures acts { Acts D.SectorDisk (enter view) replica.old replica.new disk.old disk.new out.old out.new result }
{
    if LAST_VIEW < view {
        replica.rest();
        Ok(())
    } else {
        enter_now(replica, alloc, disk, view, out)
    }
}
