//! A replica is recovered from its disk.
ghost use Rattle.std.specs.Prelude.{◌≡◌, ◌≢◌, true, false, IfOk, IfErr, IfSome, Ok};
ghost use Rattle.vr_disk.specs.Counts.{CountsFault, Caused};
ghost use Rattle.vr_opening.specs.declared.reopen.NoValue.TheVariants as NoValue;
ghost use Rattle.vr_opening.specs.declared.reopen.Refusal.TheVariants as Refusal;
ghost use Rattle.vr_volatile.specs.Ready.{IsReady};
ghost use Rattle.vr_opening.specs.Finding.{IsOpeningOld};
ghost use Rattle.vr_rules.specs.Opening.{blank};
ghost use Rattle.vr_opening.specs.Recovering.{after_mend, DoesTo, config_of, FindsValue, IsRefusal, not_found, Recovered, RecoveredAny};
ghost use Rattle.vr_disk.specs.declared.fault.Halt.TheVariants as Halt;
ghost use Rattle.vr_super.specs.Recovers.{IsFound};

use crate::begin::open_mended;
use crate::wanted::{is_left, is_other};
use std::alloc::Global;
use vr_actions::{Halt, Replica};
use vr_base::{Config, Version};
use vr_disk::SectorDisk;
use vr_msg::Outbox;
use vr_super::{CopyVerdict, FindFault, FoundValue, Super, find, mend_found};

// The replica of a value that makes a good copy, which knows nothing of any op yet. An `Err` is `NoMemory`.
#[tactic(auto, using(crate::proofs::Begins::opening_blank))]
fn begun(alloc: Global, value: Super) -> Result<Replica, Halt>
    ensures blank { IfOk result (λ r. r ≡ blank value) }
    ensures opening { IfOk result (λ r. IsOpeningOld 0 r) }
    ensures err { IfErr result (λ e. e ≡ Halt.NoMemory) }
{
    let _fields = value.fields();
    match Replica::blank(alloc, value) {
        Ok(replica) => Ok(replica),
        Err(_) => Err(Halt::NoMemory),
    }
}

// Opens the replica of a value whose copies are mended. Its Parts are found; then, unless sequence numbers are at their end, it goes on: a view that
// it led is left, the start line put out, the checkpoint loaded. Committed entries are applied, and the others told. After `Ok` it is ready. After a
// fault, which adds one to the disk's faults, the disk got these calls up to the one that failed; after want of memory a front of them.
fn open_value<D: SectorDisk>(
    alloc: Global,
    disk: &mut D,
    value: Super,
    out: &mut Outbox,
) -> Result<Replica, Halt>
    ensures ready { IfOk result IsReady }
    ensures cause { Caused (D.faults disk.old) (D.faults disk.new) result }
    ensures step { DoesTo (after_mend value) (blank value) (D.told disk.old) (D.told disk.new) out.old out.new result }
{
    match begun(alloc, value) {
        Err(_) => Err(Halt::NoMemory),
        Ok(mut replica) => match open_mended(&mut replica, alloc, disk, out) {
            Ok(()) => Ok(replica),
            Err(halt) => {
                drop(replica);
                Err(halt)
            }
        },
    }
}

/// Why a disk gives no replica of the member that is asked for.
#[derive(Clone, Copy, Debug, PartialEq, Eq)]
pub enum Refusal {
    /// No two good copies of the superblock agree. The verdicts are those of copies 0 to 3.
    Lost([CopyVerdict; 4]),
    /// The disk is that of another member: of this one.
    OtherMember(Config),
    /// A call of the disk failed, or there was no memory.
    Halted(Halt),
}

/// Why a disk gives no value of a version, and so no replica of whatever member.
#[derive(Clone, Copy, Debug, PartialEq, Eq)]
pub enum NoValue {
    /// No two good copies of the superblock agree. The verdicts are those of copies 0 to 3.
    Lost([CopyVerdict; 4]),
    /// It has a value, but its file is of another version than is asked for.
    OtherVersion,
    /// A call of the disk failed, or there was no memory.
    Halted(Halt),
}

// The member that a value names: its group, its number there, and the group's size.
pub(crate) fn config_of(value: &Super) -> Config
    ensures { result ≡ config_of value.now }
{
    let f = value.fields();
    Config {
        cluster: f.cluster,
        replica: f.replica,
        n: f.n,
    }
}

// The value that was found, with each copy mended that doesn't read as it. `OtherVersion`: it is left alone, its file being of another version than
// is asked for, and no call is made. `Halted`: a call of the mending failed, those before it were made, and the disk counts one fault more. Each
// other answer leaves that count.
#[tactic(auto, using(crate::proofs::Recovers::left_alone, crate::proofs::Recovers::mended, crate::proofs::Recovers::mend_faulted))]
fn mended_value<D: SectorDisk>(
    disk: &mut D,
    found: FoundValue,
    wanted: &Option<Version>,
) -> Result<Super, NoValue>
    requires { IfSome (D.told disk.old) (λ d. IsFound d.face found) }
    ensures cause { CountsFault (NoValue.Halted Halt.DiskFault) (D.faults disk.old) (D.faults disk.new) result }
    ensures value { FindsValue wanted.now (D.told disk.old) (D.told disk.new) result }
{
    if is_left(&found.value, wanted) {
        return Err(NoValue::OtherVersion);
    }
    match mend_found(disk, found) {
        Ok(value) => Ok(value),
        Err(_) => Err(NoValue::Halted(Halt::DiskFault)),
    }
}

// `Lost` stays `Lost`, with its verdicts. A value that there was no memory for is `OtherVersion` where its file is of another version than is asked
// for, and else `Halted` for want of memory.
#[tactic(auto, unfolding(crate::specs::Recovering::not_found))]
fn not_found(fault: FindFault, wanted: &Option<Version>) -> NoValue
    ensures { result ≡ not_found wanted.now fault }
{
    match fault {
        FindFault::Lost(verdicts) => NoValue::Lost(verdicts),
        FindFault::NoMemory(version) => {
            if is_other(version, wanted) {
                NoValue::OtherVersion
            } else {
                NoValue::Halted(Halt::NoMemory)
            }
        }
    }
}

// `Lost` and `Halted` stay what they are. No version was asked for, so no file is of another one.
pub(crate) fn refusal_of(why: NoValue) -> Refusal
    requires { why ≢ NoValue.OtherVersion }
    ensures { IsRefusal why result }
{
    match why {
        NoValue::Lost(verdicts) => Refusal::Lost(verdicts),
        NoValue::OtherVersion => unreachable!(),
        NoValue::Halted(halt) => Refusal::Halted(halt),
    }
}

// The superblock's value, in a file of the version that is asked for, if one is; each copy that doesn't read as it is mended. `Lost`: no two good
// copies agree; `OtherVersion`: they do, but the file is of another version. Neither makes a call. `Halted`: a call of the mending failed, which
// alone adds one to the disk's faults, or for want of memory none was made.
pub(crate) fn find_value<D: SectorDisk>(
    alloc: Global,
    disk: &mut D,
    wanted: &Option<Version>,
) -> Result<Super, NoValue>
    ensures cause { CountsFault (NoValue.Halted Halt.DiskFault) (D.faults disk.old) (D.faults disk.new) result }
    ensures value { FindsValue wanted.now (D.told disk.old) (D.told disk.new) result }
{
    match find(alloc, disk) {
        Ok(found) => mended_value(disk, found, wanted),
        Err(fault) => Err(not_found(fault, wanted)),
    }
}

// `true` exactly where both have the same group, number in it, and size of it.
pub(crate) fn is_same(found: &Config, asked: &Config) -> bool
    ensures same { result ≡ true → found.now ≡ asked.now }
    ensures other { result ≡ false → found.now ≢ asked.now }
{
    *found == *asked
}

/// The replica of a disk, if that is the disk of the member that is asked for; after `Ok` it is ready. Its superblock is mended and its Parts found;
/// then, unless sequence numbers are at their end, it leaves a view that it led, loads, applies, and tells the others. `Lost`: no two good copies
/// agree, and no call is made; `OtherMember`: that member's superblock is mended, and no other call made. `Halted`: the calls were made up to the one
/// that failed, which alone adds one to the disk's faults; or a front of them, for want of memory. Of another member's disk these are the mending's
/// alone.
#[tactic(auto, using(crate::proofs::Recovers::recovered, crate::proofs::Recovers::halted, crate::proofs::Recovers::other_member))]
pub fn recover<D: SectorDisk>(
    alloc: Global,
    disk: &mut D,
    asked: &Config,
    out: &mut Outbox,
) -> Result<Replica, Refusal>
    ensures ready { IfOk result IsReady }
    ensures cause { CountsFault (Refusal.Halted Halt.DiskFault) (D.faults disk.old) (D.faults disk.new) result }
    ensures step { Recovered asked.now (D.told disk.old) (D.told disk.new) out.old out.new result }
{
    match find_value(alloc, disk, &None) {
        Err(why) => Err(refusal_of(why)),
        Ok(value) => {
            let found = config_of(&value);
            if is_same(&found, asked) {
                match open_value(alloc, disk, value, out) {
                    Ok(replica) => Ok(replica),
                    Err(halt) => Err(Refusal::Halted(halt)),
                }
            } else {
                Err(Refusal::OtherMember(found))
            }
        }
    }
}

/// The replica of a disk whose file is of this version, whatever member's disk it is. Its superblock is mended and its Parts found; then, unless
/// sequence numbers are at their end, it leaves a view that it led, loads, applies, and tells the others. After `Ok` it is ready. `Lost`: no two good
/// copies agree; `OtherVersion`: they do, but the file is of another version. Neither makes a call. `Halted`: the calls were made up to the one that
/// failed, which alone adds one to the disk's faults; or a front of them, for want of memory.
#[tactic(auto, using(crate::proofs::Recovers::recovered_any, crate::proofs::Recovers::halted_any))]
pub fn recover_any<D: SectorDisk>(
    alloc: Global,
    disk: &mut D,
    version: Version,
    out: &mut Outbox,
) -> Result<Replica, NoValue>
    ensures ready { IfOk result IsReady }
    ensures cause { CountsFault (NoValue.Halted Halt.DiskFault) (D.faults disk.old) (D.faults disk.new) result }
    ensures step { RecoveredAny version (D.told disk.old) (D.told disk.new) out.old out.new result }
{
    match find_value(alloc, disk, &Some(version)) {
        Err(why) => Err(why),
        Ok(value) => match open_value(alloc, disk, value, out) {
            Ok(replica) => Ok(replica),
            Err(halt) => Err(NoValue::Halted(halt)),
        },
    }
}
