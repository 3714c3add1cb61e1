//! The whole trial: its steps one after another, to an end.
ghost use Rattle.std.specs.Prelude.{◌≤◌, vec_len};
ghost use Rattle.cmd_trial.specs.Parts.{EndsCourse, MayTakeAll, TakesAll, Tried};
ghost use Rattle.cmd_trial.specs.Told.{trial_of};

use crate::course::Course;
use crate::ending::stop_all;
use crate::order::script;
use crate::plan::Plan;
use crate::step::Step;
use std::alloc::Global;
use vr_base::Status;
use vr_edge::{Link, Sink};
use vr_spawn::Spawner;

/// Takes these steps in order; after `Ok` each went well. An `Err` is that of the first one that didn't: those before it were done whole,
/// and none after it is begun. No member is stopped for it. Link, sink and spawner count one fault more where the `Err` names them, and
/// else none.
#[tactic(auto, using(std::proofs::lemmas::Grind::common_steps, crate::proofs::Runs::next_here))]
fn take_all<K: Sink, L: Link, P: Spawner>(
    course: &mut Course,
    plan: &Plan,
    steps: &[Step],
    sink: &mut K,
    link: &mut L,
    spawner: &mut P,
) -> Result<(), Status>
    requires { MayTakeAll (trial_of plan.now) steps.now course.old }
    ensures { TakesAll K.Sink L.Link P.Spawner (trial_of plan.now) steps.now course.old course.new sink.old sink.new link.old link.new spawner.old spawner.new result }
{
    for step in steps {
        course.take(plan, *step, sink, link, spawner)?;
    }
    Ok(())
}

/// Takes these steps in order: `Done` where each went well, with nothing done after them. Else the status is that of the first one that
/// didn't, and each member that runs then is stopped once, in the order of their numbers. A stop that fails only adds one to the
/// spawner's faults. Link and sink count one fault more where the status names them, and else none.
#[tactic(auto, using(std::proofs::lemmas::Grind::common_steps, crate::proofs::Runs::went_through))]
fn take_or_end<K: Sink, L: Link, P: Spawner>(
    course: &mut Course,
    plan: &Plan,
    steps: &[Step],
    sink: &mut K,
    link: &mut L,
    spawner: &mut P,
) -> Status
    requires { MayTakeAll (trial_of plan.now) steps.now course.old }
    ensures { EndsCourse K.Sink L.Link P.Spawner (trial_of plan.now) steps.now course.old sink.old sink.new link.old link.new spawner.old spawner.new result }
{
    match take_all(course, plan, steps, sink, link, spawner) {
        Ok(()) => Status::Done,
        Err(status) => {
            stop_all(course.running.as_slice(), spawner);
            status
        }
    }
}

/// In this order: the members are started with new files, client 1 attaches its link, registers and puts keys 1 to 8, and member 0 is
/// stopped and started again. Then the client gets keys 1 to 8, and all members are stopped: `Done` where each went well. Each start,
/// stop and answer has its line in the sink. Else the status is that of the step that didn't; none comes after it, and the members that
/// run are stopped, whatever comes of that. `NoMemory` before the first step: no object was called; link and sink count one fault more
/// where the status names them, and else none.
#[tactic(auto, using(std::proofs::lemmas::Grind::common_steps, crate::proofs::Runs::ends_short, crate::proofs::Numbering::script_next))]
pub fn run_trial<K: Sink, L: Link, P: Spawner>(
    alloc: Global,
    plan: &Plan,
    sink: &mut K,
    link: &mut L,
    spawner: &mut P,
) -> Status
    requires least { 2 ≤ vec_len plan.now.peers }
    requires most { vec_len plan.now.peers ≤ 6 }
    ensures { Tried K.Sink L.Link P.Spawner (trial_of plan.now) sink.old sink.new link.old link.new spawner.old spawner.new result }
{
    let Ok(mut course) = Course::new(alloc, plan) else {
        return Status::NoMemory;
    };
    let Ok(steps) = script(alloc, plan.peers.len()) else {
        return Status::NoMemory;
    };
    take_or_end(&mut course, plan, steps.as_slice(), sink, link, spawner)
}
