//! Laws of slots.
ghost use Rattle.std.specs.Prelude.{ℕ, ◌<◌, ◌≡◌, [], List, Option, length};
ghost use Rattle.vr_base.specs.declared.mode.Mode.{Mode};
ghost use Rattle.vr_disk.specs.DiskState.{Face};
ghost use Rattle.vr_disk.specs.Regions.{sectors};
ghost use Rattle.vr_rings.specs.Held.{Stands};
ghost use Rattle.vr_rings.specs.Laws.{OneSpelling};
ghost use Rattle.vr_rings.specs.Moving.{IsMoved, Moves};

/// The laws of slots: it does nothing.
///
/// - A header sector that reads as a header, and a prepare that reads as a whole entry, have the bytes that are written for
///   it, and these read as it.
pub fn slot_laws()
    ensures spelling { OneSpelling }
{}

/// The law of prepares that are written at their new places: it does nothing.
///
/// - At each stop, and after all calls, the old places hold what they held, and after all calls the new ones do.
pub fn moves_keep()
    ensures { (mode : Mode) (f : Face) (new : ℕ → List ℕ) (slot : ℕ) (held : Option (List ℕ)) → slot < 64 → length f.cells ≡ sectors → f.waiting ≡ [] → IsMoved f slot (new slot) → Stands 1 mode f slot held → Moves mode f new slot held }
{}
