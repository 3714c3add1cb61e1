//! A program as a whole: what its maker makes is run over, and the status that it comes to is told.
ghost use Rattle.vr_top.specs.Beginning.{IsTold, KnowsPath, KnowsWords, Ran, Runs};

use crate::command::run;
use crate::program::{Program, Untold};
use crate::telling::finish;
use std::alloc::{AllocError, Global};
use vr_base::Status;
use vr_edge::Sink;

/// The words after the program's name, none where that isn't there. Where one of them is no text (`NoText`), there are none: no words are no
/// command. An `Err` exactly where telling them wanted memory.
fn words_of(alloc: Global, told: Result<Vec<String>, Untold>) -> Result<Vec<String>, AllocError>
    ensures { KnowsWords told result }
{
    match told {
        Ok(mut words) => {
            if !words.is_empty() {
                words.remove(0);
            }
            Ok(words)
        }
        Err(Untold::NoMemory) => Err(AllocError),
        Err(Untold::NoText) => Ok(Vec::new(alloc)),
    }
}

/// Where the program stands; `None` where there is no path, or it is no text (`NoText`). An `Err` exactly where telling it wanted memory.
fn path_of<T>(told: Result<T, Untold>) -> Result<Option<T>, AllocError>
    ensures { KnowsPath told result }
{
    match told {
        Ok(path) => Ok(Some(path)),
        Err(Untold::NoMemory) => Err(AllocError),
        Err(Untold::NoText) => Ok(None),
    }
}

/// Has the maker give, each at most once and in this order, words, path, and the objects, with that path. Then it runs over these once, with the
/// words after the program's name, has the maker take them back, and gives the run's status. Where memory is short for words, path or objects, nothing
/// is asked for after it and nothing is run: that is `NoMemory`. An `Err` says the same as `NoMemory`. It has a frame of its own, which is a large one.
#[inline(never)]
fn make_and_run<M: Program>(alloc: Global, maker: &mut M) -> Result<Status, AllocError>
    ensures { Ran (Runs M.Source.Source M.Sink.Sink M.Disk.SectorDisk M.Link.Link M.Clock.Clock M.Spawner.Spawner) M.made maker.old maker.new result }
{
    let words = words_of(alloc, maker.words())?;
    let path = path_of(maker.path())?;
    let mut objects = maker.make(path)?;
    let status = run(
        alloc,
        &words,
        &mut objects.source,
        &mut objects.sink,
        &mut objects.disk,
        &mut objects.link,
        &mut objects.clock,
        &mut objects.spawner,
    );
    maker.take_back(objects);
    Ok(status)
}

/// Takes first what a run stands on; where that isn't all there, nothing is made or run, and the status is `NoMemory`. Else the maker gives, in this
/// order, words, path and the objects; the program runs over these once, and the maker takes them back as that run left them. Where memory is short
/// for one of them, nothing is asked for after it, nothing is run, and the status is `NoMemory`. At last the status's line goes to `errors`, a front
/// of it where a write fails, and its code is returned.
pub fn run_outside<M: Program, E: Sink>(alloc: Global, maker: &mut M, errors: &mut E) -> u8
    ensures { IsTold M.Source.Source M.Sink.Sink M.Disk.SectorDisk M.Link.Link M.Clock.Clock M.Spawner.Spawner M.made E.Sink maker.old maker.new errors.old errors.new result }
{
    if !maker.take_ground() {
        return finish(alloc, &Status::NoMemory, errors);
    }
    let status = make_and_run(alloc, maker).unwrap_or(Status::NoMemory);
    finish(alloc, &status, errors)
}
