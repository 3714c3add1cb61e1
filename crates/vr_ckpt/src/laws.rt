//! What checkpoints leave of each other: laws.
ghost use Rattle.vr_ckpt.specs.Laws.{DoneLaw, FewStandBelow, KeepLaw, RootsApart, TablesHeld};

/// The laws of checkpoints: it does nothing.
///
/// - A checkpoint that was saved over one whose table the disk holds loads as it was saved: its texts and its table.
/// - The checkpoint before loads as before, at the end of saving another and in a cut at any call.
/// - The disk holds each table that it loads.
/// - A checkpoint of texts that have at most 9 and 36 payloads is written to the first 128 addresses of the grid.
/// - The roots of two checkpoints, one after the other, stand at different places.
pub fn checkpoint_laws()
    ensures done { DoneLaw }
    ensures keep { KeepLaw }
    ensures held { TablesHeld }
    ensures below { FewStandBelow }
    ensures apart { RootsApart }
{}
