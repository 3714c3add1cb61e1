//! The program over the real outside: standard input and output, a file, UDP or TCP, the system's clock, and runs of itself.
#![tactic(auto)]

ghost use Rattle.std.specs.Prelude.{ℕ, None, []};
ghost use Rattle.vr_edge.specs.Told.{Grows};

use std::alloc::AllocError;
use std::env::{args, current_exe};
use std::io;
use std::io::{ErrorKind, Stdin, Stdout};
use std::path::PathBuf;
use std::process::ExitCode;
use vr_file::FileDisk;
use vr_real::{
    RealClock, RealLink, RealSpawner, SocketLink, StdSink, StdSource, take_missing_streams,
    take_stack,
};
use vr_top::{Maker, Objects, Program, Untold, run_outside};

/// The runtime's hand: it makes what is outside, and tells the program's words and where it stands. It doesn't tell what it made.
#[derive(Drop)]
struct Hand<'r> {
    rt: &'r HostRuntime,
}

/// Why the system didn't tell something.
fn untold(error: io::Error) -> Untold {
    match error.kind() {
        ErrorKind::OutOfMemory => Untold::NoMemory,
        _ => Untold::NoText,
    }
}

impl<'r> Hand<'r> {
    /// A disk that has taken all the memory that it will have a use for.
    fn disk(&self) -> Result<FileDisk<&'r HostRuntime>, AllocError> {
        let mut disk = FileDisk::new(self.rt.alloc(), self.rt);
        disk.remember()?;
        disk.take_room()?;
        Ok(disk)
    }
}

impl<'r> Maker for Hand<'r> {
    type Source = StdSource<Stdin>;

    type Sink = StdSink<Stdout, &'r HostRuntime>;

    type Disk = FileDisk<&'r HostRuntime>;

    type Link = SocketLink<&'r HostRuntime>;

    type Clock = RealClock<&'r HostRuntime>;

    type Spawner = RealSpawner<&'r HostRuntime>;

    type Path = PathBuf;

    ghost made = { λ _. None };

    // This and the next say what the trait says of a maker that tells nothing.
    fn make(
        &mut self,
        path: Option<PathBuf>,
    ) -> Result<
        Objects<Self::Source, Self::Sink, Self::Disk, Self::Link, Self::Clock, Self::Spawner>,
        AllocError,
    >
        ensures { Grows {X = ℕ} None None [] }
    {
        let disk = self.disk()?;
        let link = RealLink::new(self.rt.alloc(), self.rt)?;
        Ok(Objects {
            source: StdSource::new(self.rt.stdin()),
            sink: StdSink::new(self.rt.stdout(), self.rt),
            disk,
            link,
            clock: RealClock::new(self.rt),
            spawner: RealSpawner::new(self.rt.alloc(), self.rt, path),
        })
    }

    fn take_back(
        &mut self,
        objects: Objects<
            Self::Source,
            Self::Sink,
            Self::Disk,
            Self::Link,
            Self::Clock,
            Self::Spawner,
        >,
    )
        ensures { Grows {X = ℕ} None None [] }
    {
        drop(objects);
    }
}

impl<'r> Program for Hand<'r> {
    fn take_ground(&mut self) -> bool {
        take_missing_streams() && take_stack(self.rt.alloc())
    }

    fn words(&mut self) -> Result<Vec<String>, Untold> {
        let words = args(self.rt).map_err(untold)?;
        words.collect(self.rt.alloc()).map_err(|_| Untold::NoMemory)
    }

    fn path(&mut self) -> Result<PathBuf, Untold> {
        current_exe(self.rt).map_err(untold)
    }
}

fn main(rt: HostRuntime) -> ExitCode {
    let mut errors = StdSink::new(rt.stderr(), &rt);
    ExitCode::from(run_outside(rt.alloc(), &mut Hand { rt: &rt }, &mut errors))
}
