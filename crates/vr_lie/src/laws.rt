//! That nothing which happens to a disk breaks its premise: a law, for each list of happenings.
ghost use Rattle.vr_lie.specs.Laws.{PremiseStays};

/// Calls that go through, stops among calls that keep the slots, and faults that aren't kept out, in any order and however
/// many, keep the premise of each slot. It does nothing.
pub fn lie_laws()
    ensures { PremiseStays }
{}
