//! A group in the midst of the lines that are drawn.
ghost use Rattle.std.specs.Prelude.{◌≡◌, ◌<◌, ℕ, true, IfOk, OnOk};
ghost use Rattle.vr_draws.specs.Drawn.{drawn_size};
ghost use Rattle.cmd_soak.specs.Made.{come_to, made, size_of};
ghost use Rattle.cmd_soak.specs.Soaking.{GoesOn, IsSoaking};
ghost use Rattle.cmd_soak.specs.Summing.{summary_of};

use crate::{Heard, Summary};
use std::alloc::Global;
use vr_base::{ByteList, Kind, Mode, NoMemory};
use vr_draws::Generator;
use vr_group::World;

/// A group, and what its next line is drawn by.
#[derive(Drop)]
pub struct Soaking {
    pub group: World,
    pub generator: Generator,
    pub heard: Heard,
    /// That of what the last line put out.
    text: ByteList,
}

impl Soaking {
    /// A new group on strict files, of a size that is drawn from this number.
    fn new(alloc: Global, seed: u64) -> Result<Soaking, NoMemory>
        ensures soaking { IfOk result (λ s. IsSoaking (size_of seed) (drawn_size seed).number 0 s) }
        ensures live { IfOk result (λ s. s.group.live ≡ true) }
        ensures size { IfOk result (λ s. 0 < s.group.world.n) }
        ensures version { IfOk result (λ s. s.group.version ≡ 1) }
    {
        let mut generator = Generator::new(seed);
        let n = generator.size();
        let group = World::new(alloc, n, Kind::of_mode(Mode::Strict))?;
        let heard = Heard::new();
        Ok(Soaking {
            group,
            generator,
            heard,
            text: ByteList::new(alloc),
        })
    }

    /// Draws a line, and runs it.
    fn step(&mut self, alloc: Global) -> Result<(), NoMemory>
        requires live { self.old.group.live ≡ true }
        requires size { 0 < self.old.group.world.n }
        requires version { self.old.group.version ≡ 1 }
        ensures soaking { OnOk result (GoesOn self.old self.new) }
        ensures live { OnOk result (self.new.group.live ≡ true) }
        ensures size { OnOk result (self.new.group.world.n ≡ self.old.group.world.n) }
        ensures version { OnOk result (self.new.group.version ≡ 1) }
    {
        let n = self.group.size();
        let messages = self.group.messages();
        let line = self
            .generator
            .line(alloc, n, messages, &self.heard.requests)?;
        self.text.clear();
        self.group.step(alloc, &line, &mut self.text)?;
        self.heard.hear(self.group.last(), self.text.as_slice())?;
        Ok(())
    }

    /// A new group after so many lines.
    pub fn run(alloc: Global, seed: u64, count: u32) -> Result<Soaking, NoMemory>
        ensures soaking { IfOk result (λ s. IsSoaking (size_of seed) (drawn_size seed).number count s) }
        ensures live { IfOk result (λ s. s.group.live ≡ true) }
    {
        let mut soaking = Soaking::new(alloc, seed)?;
        for _ in 0..count {
            soaking.step(alloc)?;
        }
        Ok(soaking)
    }

    /// What its lines have come to.
    pub fn summary(self, count: u32) -> Summary
        requires live { self.group.live ≡ true }
        ensures { (n number : ℕ) → IsSoaking n number count self → result ≡ summary_of count (come_to n (made n number count).lines) }
    {
        let Soaking {
            mut group,
            heard,
            ..
        } = self;
        let view = group.top_view();
        let messages = group.messages() as u64;
        Summary {
            events: count,
            messages,
            commits: heard.commits,
            view,
            faults: heard.faults,
            sum: heard.sum(),
        }
    }
}
