//! What a disk in memory always is.
ghost use Rattle.vr_mem.specs.Told.{Honest};

/// A disk in memory is honest, whatever was called: each of its sectors reads as what it should hold. It does nothing.
pub fn honest_disk()
    ensures { Honest }
{}
