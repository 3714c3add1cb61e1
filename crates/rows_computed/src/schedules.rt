//! Schedules of which all is proved that `headline` asks: that the names of what is hashed in them don't collide. The prover works them on the disks
//! that lie, and computes each name. So what is asked can be met, also where entries are committed, a disk is damaged, a write is cut, replicas stop and
//! start, views change, and a file becomes one of version 2. Each function is a law: its contract is the statement, and it does nothing. No program stands on them.

ghost use Rattle.rows_computed.specs.Rows.{AcknowledgedMeetsAll, CarefulPathMeetsAll, DroppedMeetsAll, MovedMeetsAll, OneAloneMeetsAll, PlainPathMeetsAll, TornPrepareMeetsAll};

/// A register and a put, in a group of three.
pub fn plain_path_meets_all()
    ensures { PlainPathMeetsAll }
{}

/// A register and a put, in a group of three on careful files.
pub fn careful_path_meets_all()
    ensures { CarefulPathMeetsAll }
{}

/// An acknowledged entry whose two places are damaged isn't denied: the choice of a log waits.
pub fn acknowledged_meets_all()
    ensures { AcknowledgedMeetsAll }
{}

/// The write of an entry is cut: it was never stored, and the log of the next view hasn't got it.
pub fn torn_prepare_meets_all()
    ensures { TornPrepareMeetsAll }
{}

/// An operation that only the stopped primary has is dropped by a nack quorum, and its number is that of another one.
pub fn dropped_meets_all()
    ensures { DroppedMeetsAll }
{}

/// A register and a put, in a group of one on a file of version 2.
pub fn one_alone_meets_all()
    ensures { OneAloneMeetsAll }
{}

/// The file of a stopped member, which has an entry, becomes one of version 2.
pub fn moved_meets_all()
    ensures { MovedMeetsAll }
{}
