//! What a stop leaves of the superblock, and that a copy has one spelling: laws, for each value and each disk.
ghost use Rattle.vr_super.specs.Laws.{CountLaw, MendLaw, OneSpelling, OpensLaw, WriteLaw};

/// The laws of the superblock: it does nothing.
///
/// - A good copy's bytes are those of its value, and the bytes of a value that makes a good copy have that value.
/// - What copies open as is what two good ones have, byte for byte, of the greatest sequence of all such; they open as
///   nothing exactly where no two agree. So does a disk, and a sync changes nothing of it.
/// - Mending the value that a disk opens as leaves four copies that read as it, and a stop at any of its calls a disk
///   that opens as it; so does a call of it that fails.
/// - Writing a value leaves four copies that read as it, and a stop at any of its calls a disk that opens as the old
///   value or as the new one; so does a call of it that fails. Where all four copies read as the old value it takes
///   84 calls.
pub fn superblock_laws()
    ensures spelling { OneSpelling }
    ensures opens { OpensLaw }
    ensures mend { MendLaw }
    ensures write { WriteLaw }
    ensures count { CountLaw }
{}
