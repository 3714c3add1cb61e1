//! Replicas on disks that lie: laws, over the definitions. Each function is a law: its contract is the statement, and it does nothing.
ghost use Rattle.vr_host_disk.specs.Laws.{ActsGo, ActsHalt, CutsTell, MigrationsGo, MigrationsHalt, OpeningsAreOfSectors, RunsTell, StepsAreOfSectors};

/// A step on a disk that lies is that of its sectors, and an opening too: what the slots hold is never read.
pub fn steps_read_sectors()
    ensures steps { StepsAreOfSectors }
    ensures openings { OpeningsAreOfSectors }
{}

/// What calls leave of a disk that tells what its slots hold is what the definitions say of calls: where all went well, and where the
/// fuse has cut one; nothing else stops them.
pub fn runs_tell()
    ensures well { RunsTell }
    ensures cut { CutsTell }
{}

/// A member that acts on such a disk leaves what the definitions say: where all calls of its step go well, and where one doesn't,
/// which is the fuse's.
pub fn members_act()
    ensures go { ActsGo }
    ensures halt { ActsHalt }
{}

/// A member whose file is migrated leaves what the definitions say: where all calls go well, and where the fuse cuts one. The file is of the
/// version of the value that it opens as then.
pub fn members_migrate()
    ensures go { MigrationsGo }
    ensures halt { MigrationsHalt }
{}
