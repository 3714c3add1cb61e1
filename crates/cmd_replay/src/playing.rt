//! A replay between two pieces of its source.
ghost use Rattle.std.specs.Prelude.{◌≡◌, ◌≤◌, ◌<◌, ◌++◌, [], None, Some, true, IfOk, OnOk, OnErr, IfErr, drop};
ghost use Rattle.std.specs.Io.KnownBytes.{Appends};
ghost use Rattle.vr_lines.specs.Fits.{IsLineOf};
ghost use Rattle.cmd_replay.specs.Playing.{Played, comes, scene_of};
ghost use Rattle.cmd_replay.specs.Schedule.{line_at};
ghost use Rattle.cmd_replay.specs.Stops.{JudgeCause, Stopped, Tells};
ghost use Rattle.vr_group.specs.Outputs.{text_of};
ghost use Rattle.cmd_replay.specs.declared.stop.Stop.TheVariants as stop;

use crate::Stop;
use std::alloc::Global;
use vr_base::{ByteList, NoMemory, Version};
use vr_edge::{Sink, write_whole};
use vr_group::World;
use vr_lines::{Line, LineFault, Lines, Next, parse_line};

/// The most lines of a schedule.
const LIMIT: u32 = 1_000_000;

/// A replay between two pieces of its source.
#[derive(Drop)]
pub struct Replay {
    pub group: World,
    /// So many lines were taken.
    pub number: u32,
    /// What has come of the next line.
    pub lines: Lines,
}

/// What happens at a line; the text of its outputs goes after what stands there. The first line makes a group.
#[tactic(auto, using(std::proofs::lemmas::Grind::common_steps, vr_group::proofs::Numbering::numbered_none, vr_group::proofs::Numbering::text_none), unfolding(crate::specs::Playing::comes))]
fn play(alloc: Global, group: &mut World, line: &Line, to: &mut ByteList) -> Result<(), NoMemory>
    requires live { group.old.live ≡ true }
    requires fits { IsLineOf group.old.version group.old.world.n line.now }
    ensures scene { OnOk result (scene_of group.new ≡ (comes (scene_of group.old) line.now).scene) }
    ensures text { OnOk result (to.new ≡ to.old ++ text_of (comes (scene_of group.old) line.now).outputs) }
    ensures kept { OnErr result (to.new ≡ to.old) }
    ensures live { OnOk result (group.new.live ≡ true) }
{
    if let Line::Cluster { n, kind } = line {
        *group = World::new(alloc, *n, *kind)?;
        return Ok(());
    }
    group.step(alloc, line, to)?;
    Ok(())
}

/// The line of a version that these bytes spell, after so many others.
fn judge(alloc: Global, n: u8, number: u32, text: &[u8], version: Version) -> Result<Line, Stop>
    requires { number ≤ 1000000 }
    ensures ok { IfOk result (λ line. line_at version n number text.now ≡ Some line) }
    ensures fits { IfOk result (λ line. IsLineOf version n line) }
    ensures room { OnOk result (number < 1000000) }
    ensures cause { IfErr result (JudgeCause (line_at version n number text.now) number) }
{
    if number >= LIMIT {
        return Err(Stop::Refused(number + 1));
    }
    match parse_line(alloc, n, text, version) {
        Ok(line) => Ok(line),
        Err(LineFault::NotALine) => Err(Stop::Refused(number + 1)),
        Err(LineFault::NoMemory) => Err(Stop::NoMemory),
    }
}

// Writes the text of what lines have come to, whether or not a stop came.
fn write_heard<K: Sink>(sink: &mut K, text: &[u8], heard: Result<(), Stop>) -> Result<(), Stop>
    ensures written { (t : Played) → Tells heard text.now t → OnOk result (Appends (K.taken sink.old) (K.taken sink.new) (text_of t.outputs)) }
    ensures kept { OnOk result (K.faults sink.new ≡ K.faults sink.old) }
    ensures stopped { (t : Played) → Tells heard text.now t → IfErr result (Stopped (K.faults sink.old) (K.faults sink.new) (K.taken sink.old) (K.taken sink.new) t) }
    ensures same { OnOk result (heard ≡ result) }
{
    write_whole(sink, text)?;
    heard
}

impl Replay {
    ghost use Rattle.cmd_replay.specs.Playing.{IsReplay, HearsAll, taken, hears_lines, no_scene, scene_of, ends};
    ghost use Rattle.cmd_replay.specs.Stops.{HasStopped, Stopped};

    /// Takes the line that was given; the text of its outputs goes after what stands there.
    #[tactic(auto, using(std::proofs::lemmas::Grind::common_steps, crate::proofs::Taken::taken_some, crate::proofs::Taken::taken_none, vr_group::proofs::Numbering::text_none))]
    fn take_line(&mut self, alloc: Global, to: &mut ByteList) -> Result<(), Stop>
        requires live { self.old.group.live ≡ true }
        requires few { self.old.number ≤ 1000000 }

        ensures scene { OnOk result (scene_of self.new.group ≡ (taken (scene_of self.old.group) self.old.number self.old.lines.line).scene) }
        ensures number { OnOk result (self.new.number ≡ (taken (scene_of self.old.group) self.old.number self.old.lines.line).number) }
        ensures accepted { OnOk result ((taken (scene_of self.old.group) self.old.number self.old.lines.line).refused ≡ None) }
        ensures lines { self.new.lines ≡ self.old.lines }
        ensures live { OnOk result (self.new.group.live ≡ true) }
        ensures few { OnOk result (self.new.number ≤ 1000000) }

        ensures text { OnOk result (to.new ≡ to.old ++ text_of (taken (scene_of self.old.group) self.old.number self.old.lines.line).outputs) }

        ensures stopped { IfErr result (HasStopped to.old to.new (taken (scene_of self.old.group) self.old.number self.old.lines.line)) }
    {
        let line = judge(
            alloc,
            self.group.size(),
            self.number,
            self.lines.line(),
            self.group.version(),
        )?;
        let played = play(alloc, &mut self.group, &line, to);
        drop(line);
        played?;
        self.number += 1;
        Ok(())
    }

    /// Takes the lines that have ended; the text of their outputs goes after what stands there.
    fn hear_lines(&mut self, alloc: Global, to: &mut ByteList) -> Result<(), Stop>
        requires live { self.old.group.live ≡ true }
        requires few { self.old.number ≤ 1000000 }
        ensures heard { OnOk result (HearsAll self.old self.new self.old.lines.bytes (Some to.old) (Some to.new)) }
        ensures stopped { IfErr result (HasStopped to.old to.new (hears_lines self.old)) }
    {
        loop {
            match self.lines.next(false) {
                Next::Line => self.take_line(alloc, to)?,
                Next::TooLong => return Err(Stop::Refused(self.number + 1)),
                Next::End => return Ok(()),
                Next::More => return Ok(()),
            }
        }
    }

    /// Takes the lines that have ended, and writes their outputs, all of them together.
    pub fn take_lines<K: Sink>(&mut self, alloc: Global, sink: &mut K) -> Result<(), Stop>
        requires live { self.old.group.live ≡ true }
        requires few { self.old.number ≤ 1000000 }

        ensures heard { OnOk result (HearsAll self.old self.new self.old.lines.bytes (K.taken sink.old) (K.taken sink.new)) }

        ensures kept { OnOk result (K.faults sink.new ≡ K.faults sink.old) }
        ensures stopped { IfErr result (Stopped (K.faults sink.old) (K.faults sink.new) (K.taken sink.old) (K.taken sink.new) (hears_lines self.old)) }
    {
        let mut text = ByteList::new(alloc);
        let heard = self.hear_lines(alloc, &mut text);
        write_heard(sink, text.as_slice(), heard)
    }

    /// A replay of which nothing has come.
    pub fn new(alloc: Global) -> Replay
        ensures scene { scene_of result.group ≡ no_scene }
        ensures number { result.number ≡ 0 }
        ensures lines { result.lines.bytes ≡ [] }
        ensures sound { IsReplay result }
    {
        Replay {
            group: World::empty(alloc),
            number: 0,
            lines: Lines::new(),
        }
    }

    /// Nothing stands at the end of the source.
    fn end(&self) -> Result<(), Stop>
        ensures some { OnOk result (0 < self.now.number) }
        ensures none { IfErr result (λ why. (why ≡ stop.Refused 1) × (self.now.number ≡ 0)) }
    {
        if self.number == 0 {
            return Err(Stop::Refused(1));
        }
        Ok(())
    }

    // Takes the line that was given, and writes its outputs.
    fn take_last<K: Sink>(&mut self, alloc: Global, sink: &mut K) -> Result<(), Stop>
        requires live { self.old.group.live ≡ true }
        requires few { self.old.number ≤ 1000000 }

        ensures accepted { OnOk result ((taken (scene_of self.old.group) self.old.number self.old.lines.line).refused ≡ None) }
        ensures text { OnOk result (Appends (K.taken sink.old) (K.taken sink.new) (text_of (taken (scene_of self.old.group) self.old.number self.old.lines.line).outputs)) }
        ensures kept { OnOk result (K.faults sink.new ≡ K.faults sink.old) }
        ensures stopped { IfErr result (Stopped (K.faults sink.old) (K.faults sink.new) (K.taken sink.old) (K.taken sink.new) (taken (scene_of self.old.group) self.old.number self.old.lines.line)) }
    {
        let mut text = ByteList::new(alloc);
        let taken = self.take_line(alloc, &mut text);
        write_heard(sink, text.as_slice(), taken)
    }

    /// The source is at its end: the line that stands is the last. A schedule has at least one line.
    #[tactic(auto, using(std::proofs::lemmas::Grind::common_steps, vr_edge::proofs::Told::appends_nil, vr_group::proofs::Numbering::text_none), unfolding(crate::specs::Playing::ends))]
    pub fn finish<K: Sink>(&mut self, alloc: Global, sink: &mut K) -> Result<(), Stop>
        requires { IsReplay self.old }
        ensures accepted { OnOk result ((ends self.old).refused ≡ None) }
        ensures text { OnOk result (Appends (K.taken sink.old) (K.taken sink.new) (text_of (ends self.old).outputs)) }
        ensures kept { OnOk result (K.faults sink.new ≡ K.faults sink.old) }
        ensures stopped { IfErr result (Stopped (K.faults sink.old) (K.faults sink.new) (K.taken sink.old) (K.taken sink.new) (ends self.old)) }
    {
        match self.lines.next(true) {
            Next::Line => self.take_last(alloc, sink),
            Next::TooLong | Next::End | Next::More => self.end(),
        }
    }
}
