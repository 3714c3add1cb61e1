//! How a step is taken: each calls the spawner, attaches the link or asks, and most write a line.
ghost use Rattle.cmd_trial.specs.Parts.{Asks, Attaches, Begins, Halts, MayTake, StartsOne, StopsOne, Takes};
ghost use Rattle.cmd_trial.specs.Script.{IsNext};
ghost use Rattle.cmd_trial.specs.Told.{trial_of};
ghost use Rattle.cmd_trial.specs.declared.step.Step.TheVariants.{Ask};

use crate::course::Course;
use crate::lines::{operation_of, write_line};
use crate::plan::Plan;
use crate::step::{Question, Step};
use crate::words::start_words;
use cmd_client::exchange;
use vr_base::Status;
use vr_edge::{Link, Sink};
use vr_spawn::Spawner;

impl Course {
    /// Has the spawner start a member by its words, those of a new file where `is_fresh`. After `Ok` it runs by the number that it was
    /// given, and the others as before. `NoMemory`: the spawner wasn't called. `SpawnFault`: the start failed, and by it alone the
    /// spawner counts one fault more. After an `Err` the same members run as before; the client stays in each case.
    #[tactic(auto, using(std::proofs::lemmas::Grind::common_steps, crate::proofs::Stepping::started_with, crate::proofs::Stepping::unstarted, crate::proofs::Stepping::uncalled))]
    fn start<P: Spawner>(
        &mut self,
        plan: &Plan,
        member: u8,
        is_fresh: bool,
        spawner: &mut P,
    ) -> Result<(), Status>
        ensures { StartsOne P.Spawner (trial_of plan.now) member is_fresh self.old self.new spawner.old spawner.new result }
    {
        let Ok(words) = start_words(self.alloc, plan, member, is_fresh) else {
            return Err(Status::NoMemory);
        };
        let Ok(id) = spawner.start(&words) else {
            return Err(Status::SpawnFault);
        };
        self.set_running(member, Some(id));
        Ok(())
    }

    /// Has the spawner start a member, with a new file where `is_fresh`, and then writes the line `started R`. Where it isn't started,
    /// for `SpawnFault` or `NoMemory`, the same members run as before, and nothing is written. Where the line isn't written, for
    /// `WriteFault` or `NoMemory`, the member runs, and the sink took a front of it. Spawner and sink count one fault more where the
    /// `Err` names them, and else none; the client stays.
    #[tactic(auto, using(std::proofs::lemmas::Grind::common_steps, crate::proofs::Stepping::told, crate::proofs::Stepping::told_in_part, crate::proofs::Stepping::untold, crate::proofs::Telling::line_spawns, crate::proofs::Telling::call_writes))]
    fn begin<K: Sink, P: Spawner>(
        &mut self,
        plan: &Plan,
        member: u8,
        is_fresh: bool,
        sink: &mut K,
        spawner: &mut P,
    ) -> Result<(), Status>
        ensures { Begins K.Sink P.Spawner (trial_of plan.now) member is_fresh self.old self.new sink.old sink.new spawner.old spawner.new result }
    {
        match self.start(plan, member, is_fresh, spawner) {
            Ok(()) => write_line(self.alloc, sink, "started", member),
            Err(status) => Err(status),
        }
    }

    /// Has the spawner stop a member, where it runs; where it doesn't, the spawner isn't called. After `Ok` it doesn't run. After an
    /// `Err` the same members count as running as before: `SpawnFault` is a stop that failed, by which alone the spawner counts one fault
    /// more. The client stays in each case.
    #[tactic(auto, using(std::proofs::lemmas::Grind::common_steps, crate::proofs::Stepping::stopped_one, crate::proofs::Stepping::stopped_none, crate::proofs::Stepping::unstopped, vr_mail::proofs::Growing::grows_nil))]
    fn stop<P: Spawner>(&mut self, member: u8, spawner: &mut P) -> Result<(), Status>
        ensures { StopsOne P.Spawner member self.old self.new spawner.old spawner.new result }
    {
        if let Some(id) = self.running_at(member) {
            if spawner.stop(id).is_err() {
                return Err(Status::SpawnFault);
            }
        }
        self.set_running(member, None);
        Ok(())
    }

    /// Has the spawner stop a member, where it runs, and then writes the line `stopped R`. Where the stop fails (`SpawnFault`) or isn't
    /// tried (`NoMemory`), the same members count as running as before, and nothing is written. Any other `Err` is `WriteFault` or
    /// `NoMemory` at the line: the member doesn't run, and the sink took a front of the line. Spawner and sink count one fault more
    /// where the `Err` names them, and else none; the client stays.
    #[tactic(auto, using(std::proofs::lemmas::Grind::common_steps, crate::proofs::Stepping::told, crate::proofs::Stepping::told_in_part, crate::proofs::Stepping::untold, crate::proofs::Telling::line_spawns, crate::proofs::Telling::call_writes))]
    fn end<K: Sink, P: Spawner>(
        &mut self,
        member: u8,
        sink: &mut K,
        spawner: &mut P,
    ) -> Result<(), Status>
        ensures { Halts K.Sink P.Spawner member self.old self.new sink.old sink.new spawner.old spawner.new result }
    {
        match self.stop(member, spawner) {
            Ok(()) => write_line(self.alloc, sink, "stopped", member),
            Err(status) => Err(status),
        }
    }

    /// Attaches the client's link once, without an own address and with those of all members as peers. `LinkFault`: the attach failed,
    /// and by it alone the link counts one fault more; no other `Err` comes. The course stays in each case, and so do the link's sends
    /// and receives.
    #[tactic(auto, using(std::proofs::lemmas::Grind::common_steps, crate::proofs::Writing::rose_one))]
    fn attach<L: Link>(&mut self, plan: &Plan, link: &mut L) -> Result<(), Status>
        ensures { Attaches L.Link (trial_of plan.now) self.old self.new link.old link.new result }
    {
        match link.attach("", &plan.peers) {
            Ok(()) => Ok(()),
            Err(_) => Err(Status::LinkFault),
        }
    }

    /// The client asks the question with its next number, and then writes the line of the answer: `Ok` where that is an outcome, and the
    /// number goes up by one. `SessionLost`: the line of another answer was written; `WriteFault` and `NoMemory`: a front of a line at
    /// most; `NoAnswer` and `LinkFault`: nothing. The same members run, and the client keeps version, group and id. Link and sink count
    /// one fault more where the `Err` names them, and else none; nothing is attached.
    #[tactic(auto, using(std::proofs::lemmas::Grind::common_steps, crate::proofs::Stepping::untried))]
    fn ask<K: Sink, L: Link>(
        &mut self,
        turns: u64,
        question: Question,
        link: &mut L,
        sink: &mut K,
    ) -> Result<(), Status>
        requires { IsNext self.old.core.number (Ask question) }
        ensures { Asks K.Sink L.Link turns question self.old self.new sink.old sink.new link.old link.new result }
    {
        match operation_of(self.alloc, question) {
            Ok(operation) => exchange(self.alloc, &mut self.core, link, sink, &operation, turns),
            Err(_) => Err(Status::NoMemory),
        }
    }

    /// Takes this step: a start, a restart or a stop with its line, the attach of the client's link, or an ask with its answer's line.
    /// After `Ok` it was done whole, and after an ask the number of the next request is one more. After an `Err` it ends the trial there,
    /// with what it did before that. An ask and the attach leave the members; starts and stops leave link and client. Link, sink and
    /// spawner count one fault more where the `Err` names them, and else none.
    #[tactic(auto, using(std::proofs::lemmas::Grind::common_steps, crate::proofs::Taking::has_started, crate::proofs::Taking::cant_start, crate::proofs::Taking::has_stopped, crate::proofs::Taking::cant_stop, crate::proofs::Taking::attached, crate::proofs::Taking::unattached, crate::proofs::Taking::has_asked, crate::proofs::Taking::cant_ask, crate::proofs::Telling::attach_writes, crate::proofs::Telling::attach_spawns, crate::proofs::Telling::ask_spawns, crate::proofs::Causes::start_links, crate::proofs::Causes::stop_links))]
    pub fn take<K: Sink, L: Link, P: Spawner>(
        &mut self,
        plan: &Plan,
        step: Step,
        sink: &mut K,
        link: &mut L,
        spawner: &mut P,
    ) -> Result<(), Status>
        requires { MayTake (trial_of plan.now) step self.old }
        ensures { Takes K.Sink L.Link P.Spawner (trial_of plan.now) step self.old self.new sink.old sink.new link.old link.new spawner.old spawner.new result }
    {
        match step {
            Step::Start(member) => self.begin(plan, member, true, sink, spawner),
            Step::Restart(member) => self.begin(plan, member, false, sink, spawner),
            Step::Attach => self.attach(plan, link),
            Step::Ask(question) => self.ask(plan.turns, question, link, sink),
            Step::Stop(member) => self.end(member, sink, spawner),
        }
    }
}
