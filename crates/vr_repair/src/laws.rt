//! What repair makes good.
ghost use Rattle.vr_repair.specs.Laws.{BlocksAreRepaired, EntriesAreRepaired, TakenBlocksRead, TakenEntriesRead};

/// On a disk on which no sector waits for a sync: an entry that may be stored, once written, is `Here`, and its slot reads as it. A block,
/// once put, isn't missing any more, and reads under its name. At the end of the step in which an entry is taken (`EntryTaken`), its slot
/// reads as it. In the step in which a block is taken (`BlockTaken`), it is put before anything else, and reads under its name then.
pub fn repair_laws()
    ensures entries { EntriesAreRepaired }
    ensures blocks { BlocksAreRepaired }
    ensures taken_entries { TakenEntriesRead }
    ensures taken_blocks { TakenBlocksRead }
{}
