//! What follows where a step ends a trial: each member that runs is stopped.
ghost use Rattle.std.specs.Prelude.{[], ◌∷◌};
ghost use Rattle.cmd_trial.specs.Parts.{StopsEach};

use vr_spawn::Spawner;

/// Has the spawner stop the program with this number, once; with `None` it isn't called. A stop that fails adds one to the spawner's
/// faults, and changes nothing else.
#[tactic(auto, using(crate::proofs::Stopping::stopped_once))]
fn stop_if_running<P: Spawner>(id: Option<u32>, spawner: &mut P)
    ensures { StopsEach P.Spawner (id ∷ []) spawner.old spawner.new }
{
    if let Some(id) = id {
        let _ = spawner.stop(id);
    }
}

/// Has the spawner stop each member that runs, once, in the order of their numbers. A stop that fails adds one to the spawner's faults,
/// and the next ones are still stopped.
#[tactic(auto, using(std::proofs::lemmas::Grind::common_steps, crate::proofs::Stopping::stops_then))]
pub fn stop_all<P: Spawner>(running: &[Option<u32>], spawner: &mut P)
    ensures { StopsEach P.Spawner running.now spawner.old spawner.new }
{
    for id in running {
        stop_if_running(*id, spawner);
    }
}
