//! Programs of the system.
ghost use Rattle.std.specs.Prelude.{◌≡◌, [], length, None};
ghost use Rattle.vr_spawn.specs.Spawning.{IsNumbered};

use std::alloc::Global;
use std::io;
use std::io::ErrorKind;
use std::path::PathBuf;
use std::process::{Child, Command, Processes, Stdio};
use vr_io_policy::counted;
use vr_spawn::{SpawnFailed, Spawner};

/// Runs of one program, whose standard streams are null. It tells nothing. A stop kills, and one of what has ended already
/// goes well; a program that isn't stopped runs on when this is dropped.
#[derive(Drop)]
pub struct RealSpawner<R: Processes> {
    alloc: Global,
    processes: R,
    program: Option<PathBuf>,
    children: Vec<Child<R::Started>>,
    faults: u64,
}

impl<R: Processes> RealSpawner<R> {
    /// A spawner of the program at this path, through `processes`. Without a path every start fails.
    pub fn new(alloc: Global, processes: R, program: Option<PathBuf>) -> RealSpawner<R>
        ensures children { result.children.items ≡ [] }
        ensures faults { result.faults ≡ 0 }
    {
        RealSpawner {
            alloc,
            processes,
            program,
            children: Vec::new(alloc),
            faults: 0,
        }
    }

    /// Starts the program with these words after its name.
    fn spawn(&self, words: &Vec<String>) -> io::Result<Child<R::Started>> {
        let Some(program) = &self.program else {
            return Err(io::Error::from(ErrorKind::NotFound));
        };
        Command::new(self.alloc, program)?
            .args(words.iter())?
            .stdin(Stdio::null())
            .stdout(Stdio::null())
            .stderr(Stdio::null())
            .spawn(&self.processes)
    }

    /// Starts the program, and keeps it under the next number. Its place is there before it starts.
    fn start_next(&mut self, words: &Vec<String>) -> io::Result<u32>
        ensures number { IsNumbered (length self.old.children.items) (length self.new.children.items) result }
        ensures faults { self.new.faults ≡ self.old.faults }
    {
        let Ok(number) = u32::try_from(self.children.len()) else {
            return Err(io::Error::from(ErrorKind::OutOfMemory));
        };
        self.children.reserve(1)?;
        let child = self.spawn(words)?;
        self.children.push(child).unwrap();
        Ok(number)
    }

    /// Kills the program with this number, and waits for it.
    fn end(&mut self, id: u32) -> io::Result<()>
        ensures children { length self.new.children.items ≡ length self.old.children.items }
        ensures faults { self.new.faults ≡ self.old.faults }
    {
        let Some(child) = self.children.get_mut(id as usize) else {
            return Err(io::Error::from(ErrorKind::NotFound));
        };
        child.kill()?;
        child.wait()?;
        Ok(())
    }
}

impl<R: Processes> Spawner for RealSpawner<R> {
    ghost calls = { λ _. None };

    ghost started = { λ s. length s.children.items };

    ghost faults = { λ s. s.faults };

    fn start(&mut self, words: &Vec<String>) -> Result<u32, SpawnFailed> {
        let started = self.start_next(words);
        counted(started, &mut self.faults, SpawnFailed)
    }

    fn stop(&mut self, id: u32) -> Result<(), SpawnFailed> {
        let ended = self.end(id);
        counted(ended, &mut self.faults, SpawnFailed)
    }
}
