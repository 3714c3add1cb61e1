//! Which steps a trial takes, in order: starts, asks with a stop and a restart among them, stops.
ghost use Rattle.std.specs.Prelude.{◌≡◌, ◌≤◌, IfOk};
ghost use Rattle.cmd_trial.specs.Script.{script};

use crate::step::{Question, Step};
use std::alloc::{AllocError, Global};
use vr_base::Seq;

const STARTS: [Step; 6] = [
    Step::Start(0),
    Step::Start(1),
    Step::Start(2),
    Step::Start(3),
    Step::Start(4),
    Step::Start(5),
];

/// What is done while the members run.
const MIDDLE: [Step; 20] = [
    Step::Attach,
    Step::Ask(Question::Register),
    Step::Ask(Question::Put(1)),
    Step::Ask(Question::Put(2)),
    Step::Ask(Question::Put(3)),
    Step::Ask(Question::Put(4)),
    Step::Ask(Question::Put(5)),
    Step::Ask(Question::Put(6)),
    Step::Ask(Question::Put(7)),
    Step::Ask(Question::Put(8)),
    Step::Stop(0),
    Step::Restart(0),
    Step::Ask(Question::Get(1)),
    Step::Ask(Question::Get(2)),
    Step::Ask(Question::Get(3)),
    Step::Ask(Question::Get(4)),
    Step::Ask(Question::Get(5)),
    Step::Ask(Question::Get(6)),
    Step::Ask(Question::Get(7)),
    Step::Ask(Question::Get(8)),
];

const STOPS: [Step; 6] = [
    Step::Stop(0),
    Step::Stop(1),
    Step::Stop(2),
    Step::Stop(3),
    Step::Stop(4),
    Step::Stop(5),
];

/// The steps of a trial of `n` members, in order. Each is started; the client attaches its link, registers, and puts keys 1 to 8. Member
/// 0 is stopped and started again with its file; the client gets keys 1 to 8; each member is stopped. Starts and stops go from member 0
/// upwards.
pub fn script(alloc: Global, n: usize) -> Result<Seq<Step>, AllocError>
    requires { n ≤ 6 }
    ensures { IfOk result (λ steps. steps ≡ script n) }
{
    let mut steps = Seq::new(alloc);
    steps.extend(&STARTS[..n])?;
    steps.extend(&MIDDLE)?;
    steps.extend(&STOPS[..n])?;
    Ok(steps)
}
