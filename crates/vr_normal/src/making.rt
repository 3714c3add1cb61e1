//! A request becomes the next entry.
ghost use Rattle.std.specs.Prelude.{◌≡◌, ◌<◌, ◌≤◌, ◌+◌, ◌^◌, IfOk};
ghost use Rattle.vr_base.specs.Bytes.{name_of};
ghost use Rattle.vr_header.specs.Names.{name_by};
ghost use Rattle.vr_volatile.specs.Ready.{IsReady, MayStore};
ghost use Rattle.vr_msg.specs.Asking.{IsRequest};
ghost use Rattle.vr_rules.specs.Deciding.{first_of, request_table};
ghost use Rattle.vr_rules.specs.declared.rule.Rule.TheVariants.{Made};
ghost use Rattle.vr_rules.specs.Replica.{head, head_header, last_view, version};
ghost use Rattle.vr_rules.specs.Rules.{make, next_entry};
ghost use Rattle.vr_rules.specs.Steps.{by};
ghost use Rattle.vr_actions.specs.Acts.{Acts, MaySend};

use crate::entries::header_of;
use std::alloc::{AllocError, Global};
use vr_actions::{Halt, Replica, advance, write};
use vr_base::Sum;
use vr_disk::SectorDisk;
use vr_header::{Entry, Header};
use vr_msg::{Outbox, Request};

/// The name of the header that is known at the head; where none is, that of the group's root.
#[tactic(auto, using(vr_volatile::proofs::Memory::window_of))]
pub fn head_name(replica: &Replica) -> Sum
    requires { IsReady replica.now }
    ensures { result ≡ name_by name_of (head_header name_of replica.now) }
{
    match replica.header_at(replica.head()) {
        Some(header) => replica.name_of(&header),
        None => Header::root(replica.cluster()).name(),
    }
}

// The op after the head, at most 2^62.
#[tactic(auto, using(vr_volatile::proofs::Memory::window_of))]
fn next_op(replica: &Replica) -> u64
    requires ready { IsReady replica.now }
    requires room { head replica.now < 2 ^ 62 }
    ensures op { result ≡ head replica.now + 1 }
    ensures number { result ≤ 2 ^ 62 }
{
    replica.head() + 1
}

// The entry of this request, of the request's version, made in the replica's view for the op after the head, with the head's name as its
// parent. An `Err` is want of memory.
#[tactic(auto, unfolding(vr_rules::specs::Rules::next_entry))]
fn next_entry(replica: &Replica, alloc: Global, request: &Request) -> Result<Entry, AllocError>
    requires ready { IsReady replica.now }
    requires view { replica.now.view ≤ last_view }
    requires room { head replica.now < 2 ^ 62 }
    requires form { IsRequest request.now }
    ensures value { IfOk result (λ entry. entry ≡ next_entry name_of request.now replica.now) }
{
    let (header, name) = request.header();
    Ok(Entry::of_request(
        &header,
        name,
        request.fields().operation.try_clone(alloc)?,
        replica.view(),
        next_op(replica),
        head_name(replica),
    ))
}

// In this order: the entry is written into its slot, and `Here`; a prepare of it goes to each other replica, ascending. Then the commit
// number rises as long as the next op has its quorum, and what is committed is applied. After an `Err` the disk has had its calls up to the
// stop; of replica and outputs nothing is said.
#[tactic(auto, using(vr_rules::proofs::Stepping::steps, vr_volatile::proofs::Memory::readies), unfolding(vr_rules::specs::Rules::make))]
fn make<D: SectorDisk>(
    replica: &mut Replica,
    alloc: Global,
    disk: &mut D,
    entry: &Entry,
    out: &mut Outbox,
) -> Result<(), Halt>
    requires send { MaySend 64 replica.old }
    requires may { MayStore entry.now replica.old }
    requires taken { entry.now.header.version ≤ version replica.old }
    requires made { entry.now.header.view ≤ replica.old.view }
    ensures { Acts D.SectorDisk (make entry.now) replica.old replica.new disk.old disk.new out.old out.new result }
{
    write(replica, disk, entry, out)?;
    replica.send_prepare(alloc, entry, out)?;
    advance(replica, alloc, disk, out)
}

/// Rule 6, which has to apply: the entry of this request is made in the replica's view for the op after the head, on the head's name. In
/// this order: it is written, and `Here`; a prepare of it goes to each other replica, ascending; the commit number rises as quorums allow;
/// what is committed is applied. After an `Err` the disk has had its calls up to the stop; of replica and outputs nothing is said.
#[tactic(auto, using(vr_rules::proofs::Stepping::steps, crate::proofs::Requests::may_make, crate::proofs::Requests::made_taken, crate::proofs::Requests::made_view, crate::proofs::Requests::head_room))]
pub fn make_next<D: SectorDisk>(
    replica: &mut Replica,
    alloc: Global,
    disk: &mut D,
    request: &Request,
    out: &mut Outbox,
) -> Result<(), Halt>
    requires send { MaySend 64 replica.old }
    requires form { IsRequest request.now }
    requires rule { first_of (request_table request.now replica.old) ≡ Made }
    ensures { Acts D.SectorDisk (by (λ r. make (next_entry name_of request.now r))) replica.old replica.new disk.old disk.new out.old out.new result }
{
    let entry = next_entry(replica, alloc, request)?;
    let _header = header_of(&entry);
    make(replica, alloc, disk, &entry, out)
}
