//! What the order in which places are had comes to, and what a file below a cache does.
ghost use Rattle.vr_io_policy.specs.Files.{IsADisk};
ghost use Rattle.vr_io_policy.specs.Laws.{PlacesAreFair};

/// Members' streams and strangers that wait for an answer keep their places, those that wait for nothing don't, and no byte renews a wait. It does nothing.
#[tactic(auto, using(crate::proofs::Fair::are_fair))]
pub fn place_laws()
    ensures { PlacesAreFair }
{}

/// A file that gives what was written to it last, below a `SectorCache`, is a disk. What a read gives is what was written there last, after each list of
/// calls. At a sync nothing waits, and what a stop leaves of the file it may leave of the disk, sector by sector. It does nothing.
#[tactic(auto, using(crate::proofs::Between::is_a_disk))]
pub fn file_laws()
    ensures { IsADisk }
{}
