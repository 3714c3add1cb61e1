//! What calls of any disk leave, and what a stop at any of them leaves: laws, for each list of calls.
ghost use Rattle.vr_disk.specs.Stops.{ArmedFuseGoesOff, AttachingIsBarrier, CutLeaves, CutsOfBoth, FacesStay, FuseLeavesCut, NameStays, NothingWaits, RunsLeaveAfter, SparedStays, StopsLeaveFront};

/// The laws of disks, for each list of calls and each disk: it does nothing.
///
/// - Calls that end well leave what they leave one after another.
/// - Calls that stop leave what the calls before the last one leave, or a cut at that one.
/// - Where the fuse goes off, it leaves exactly the cut at its call. An armed fuse goes off at its call where no call
///   is to fail, and never later.
/// - A sector that no call writes stays as it is, in every cut too.
/// - A sector to which only one content is written reads after a cut as before, or as that, or as that damaged.
/// - A cut of calls and then others is a cut of the first, or of the others after the first.
/// - Calls and cuts leave 3,984 sectors of 512 bytes. After a stop, or an attach, no sector waits.
/// - An attach that goes well leaves its name, and writes and syncs leave it.
pub fn disk_laws()
    ensures after { RunsLeaveAfter }
    ensures front { StopsLeaveFront }
    ensures cut { FuseLeavesCut }
    ensures armed { ArmedFuseGoesOff }
    ensures spared { SparedStays }
    ensures left { CutLeaves }
    ensures both { CutsOfBoth }
    ensures faces { FacesStay }
    ensures nothing { NothingWaits }
    ensures barrier { AttachingIsBarrier }
    ensures name { NameStays }
{}
