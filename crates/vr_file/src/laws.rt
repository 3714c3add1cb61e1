//! What is above a file that does what it says.
ghost use Rattle.vr_file.specs.Shown.{IsADiskOfProofs};

/// The disk above a file and its sectors in memory is one of the disks of `vr_disk`: it reads as that, and a stop leaves of it what one leaves of that.
/// Each sector is to be written with one content at most from one sync to the next. It does nothing.
#[tactic(auto, using(crate::proofs::Shown::is_a_disk_of_proofs))]
pub fn shown_laws()
    ensures { IsADiskOfProofs }
{}
