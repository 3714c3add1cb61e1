//! The run of a program, by its words.
ghost use Rattle.std.specs.Prelude.{map, string_bytes};
ghost use Rattle.vr_top.specs.Ends.{HasOneLog};
ghost use Rattle.vr_top.specs.Roles.{IsGood};
ghost use Rattle.vr_top.specs.Run.{Obeys, RunEnds, RunTries};
ghost use Rattle.vr_args.specs.Asked.{asked, says};

use crate::outside::Outside;
use crate::roles::{plan_of, role_of};
use cmd_client::run_client;
use cmd_replay::replay;
use cmd_soak::soak;
use cmd_trial::run_trial;
use std::alloc::Global;
use vr_args::{Command, WordsFault, parse};
use vr_base::Status;
use vr_disk::SectorDisk;
use vr_edge::{Clock, Link, Sink, Source};
use vr_node::{run_migration, run_node};
use vr_spawn::Spawner;

/// Does what a command asks for, over the objects that it has a use for. A replay has one for source and sink, a soak for the sink, a member for
/// sink, disk, link and clock, a client for source, sink and link. A trial has one for sink, link and spawner, a migration for the disk; all others
/// are unchanged. The status is one that this command may have: a source, sink, disk or link that it names counts one fault more, the others none.
#[tactic(auto, using(crate::proofs::Coming::replays, crate::proofs::Coming::soaks, crate::proofs::Coming::moves, crate::proofs::Coming::node_size, crate::proofs::Coming::node_member, crate::proofs::Coming::node_fits, crate::proofs::Coming::client_size, crate::proofs::Coming::client_named, crate::proofs::Coming::trial_least, crate::proofs::Coming::trial_most))]
fn obey<S: Source, K: Sink, D: SectorDisk, L: Link, C: Clock, P: Spawner>(
    alloc: Global,
    command: Command,
    outside: &mut Outside<S, K, D, L, C, P>,
) -> Status
    requires { IsGood (says command) }
    ensures { Obeys S.Source K.Sink D.SectorDisk L.Link C.Clock P.Spawner (says command) outside.old outside.new result }
{
    match command {
        Command::Replay => replay(alloc, outside.source, outside.sink),
        Command::Soak(words) => soak(alloc, words.seed, words.count, outside.sink),
        Command::Node(words) => run_node(
            alloc,
            &role_of(words),
            outside.disk,
            outside.link,
            outside.clock,
            outside.sink,
        ),
        Command::Client(words) => run_client(
            alloc,
            words.version,
            words.cluster,
            words.id,
            &words.peers,
            words.turns,
            outside.source,
            outside.sink,
            outside.link,
        ),
        Command::Trial(words) => {
            let plan = plan_of(words);
            run_trial(alloc, &plan, outside.sink, outside.link, outside.spawner)
        }
        Command::Migrate(words) => {
            run_migration(alloc, &words.config, words.file.as_str(), outside.disk)
        }
    }
}

/// Does what the words of the command line ask for. `replay` plays the source's schedule, `soak` one that a number makes; `node` serves as a member
/// of a group, `client` asks one. `trial` starts a group and tries it, and `migrate` makes a member's file one of version 2. Other words end as
/// `Usage`, and want of memory for the words as `NoMemory`, with nothing done.
#[tactic(auto, using(crate::proofs::Good::asked_good, crate::proofs::Coming::ends_by, crate::proofs::Coming::ends_none, crate::proofs::Coming::ends_short, crate::proofs::Coming::tries_by, crate::proofs::Coming::tries_none, crate::proofs::Coming::tries_short, crate::proofs::OneLog::words_have_one_log))]
pub fn run<S: Source, K: Sink, D: SectorDisk, L: Link, C: Clock, P: Spawner>(
    alloc: Global,
    words: &Vec<String>,
    source: &mut S,
    sink: &mut K,
    disk: &mut D,
    link: &mut L,
    clock: &mut C,
    spawner: &mut P,
) -> Status
    // The words are read, what they ask for is done, and the answer has its cause. Objects that it has no use for are unchanged, all of them where the
    // words are no command.
    ensures ends { RunEnds S.Source K.Sink D.SectorDisk L.Link C.Clock words.now source.old source.new sink.old sink.new disk.old disk.new link.old link.new clock.old clock.new result }

    // A trial's own run. With other words the spawner is unchanged.
    ensures trial { RunTries K.Sink L.Link P.Spawner words.now sink.old sink.new link.old link.new spawner.old spawner.new result }

    // Whatever the schedule of `replay`, and whatever the number of `soak`: its outputs have one log.
    ensures headline { HasOneLog (asked (map string_bytes words.now.items)) }
{
    let mut outside = Outside {
        source,
        sink,
        disk,
        link,
        clock,
        spawner,
    };
    match parse(alloc, words.as_slice()) {
        Ok(command) => obey(alloc, command, &mut outside),
        Err(WordsFault::Usage) => Status::Usage,
        Err(WordsFault::NoMemory) => Status::NoMemory,
    }
}
