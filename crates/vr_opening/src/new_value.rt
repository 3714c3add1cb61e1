//! The value with which a member begins.
ghost use Rattle.std.specs.Prelude.{◌≡◌, ◌<◌, ◌^◌, IfOk, true};
ghost use Rattle.vr_base.specs.Groups.{is_size};
ghost use Rattle.vr_rules.specs.Opening.{IsKind, first_value};

use std::alloc::Global;
use vr_base::{Config, Kind, NoMemory, Seq, Sum};
use vr_super::{Fields, Super};

// The numbers of the value with which this member begins, on a file of this kind: sequence number 1, its config, version and mode, and all else 0. It
// also says that the kind's version is 1 or 2, and that the numbers fit their widths.
fn first_fields(config: Config, kind: Kind) -> Fields
    ensures value { result ≡ (first_value kind config.cluster config.n config.replica).fields }
    ensures kind { IsKind kind }
    ensures cluster { config.cluster < 2 ^ 64 }
    ensures replica { config.replica < 256 }
    ensures n { config.n < 256 }
{
    Fields {
        sequence: 1,
        cluster: config.cluster,
        view: 0,
        log_view: 0,
        checkpoint: 0,
        root_address: 0,
        root_name: Sum([0; 16]),
        commit: 0,
        head: 0,
        replica: config.replica,
        n: config.n,
        version: kind.version,
        mode: kind.mode,
    }
}

/// The superblock's value of a member of a new group, on a file of this kind: sequence number 1, its config, version and mode, no header, and all
/// else 0.
#[tactic(auto, using(crate::proofs::First::first_good))]
pub fn first_value(alloc: Global, config: &Config, kind: Kind) -> Result<Super, NoMemory>
    requires size { is_size kind.version config.now.n ≡ true }
    requires member { config.now.replica < config.now.n }
    ensures { IfOk result (λ v. v ≡ first_value kind config.now.cluster config.now.n config.now.replica) }
{
    Super::new(alloc, first_fields(*config, kind), Seq::new(alloc))
}
