//! What names stand for, and what a stop leaves of blocks: laws.
ghost use Rattle.vr_ckpt.specs.GridLaws.{OneBlock, OneSpelling, OwnNames, PutLaw};

/// The laws of blocks: it does nothing.
///
/// - A whole block has the bytes of its content, and no other bytes have that content.
/// - Bytes that are read under a name are the block of that name, and each block is read under its own name.
/// - Where no two of the hashed texts have one name by chance, a name is that of one block.
/// - A block that is put reads as it was put. No other sector changes, at the end or in a cut at any call.
pub fn grid_laws()
    ensures spelling { OneSpelling }
    ensures names { OwnNames }
    ensures one { OneBlock }
    ensures put { PutLaw }
{}
