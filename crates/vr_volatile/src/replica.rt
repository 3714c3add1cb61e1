//! What a replica has in memory.

use std::alloc::{AllocError, Global};
use std::marker::Model;
use vr_base::{NoMemory, Replicas};
use vr_ckpt::{Name, NameList, PayloadTable, State};
use vr_disk::{Buffer, SLOTS};
use vr_header::{HeaderList, Names, Part};
use vr_msg::Statement;
use vr_super::{Fields, Super};
use vr_window::{Places, Window, known_from, run_of};

/// A replica between two events. Contracts see it as the definitions do.
pub struct Replica {
    pub(crate) cluster: u64,
    pub(crate) index: u8,
    pub(crate) n: u8,
    pub(crate) view: u32,
    pub(crate) log_view: u32,
    pub(crate) commit: u64,
    pub(crate) applied: u64,
    pub(crate) checkpoint: u64,
    pub(crate) root: Name,
    pub(crate) table: PayloadTable,
    pub(crate) state: State,
    pub(crate) missing: NameList,
    pub(crate) first: u64,
    pub(crate) parts: Window<Part>,
    /// Of the headers that it knows, each named once.
    pub(crate) names: Names,
    pub(crate) ackers: Window<Replicas>,
    pub(crate) heard: Replicas,
    pub(crate) statements: Places<Statement>,
    pub(crate) idle: u64,
    pub(crate) turn: u8,
    pub(crate) cursor: u64,
    pub(crate) worn: NameList,
    pub(crate) saved: Super,
    /// Room to read a slot or block into; what it holds between two reads is unspecified.
    pub(crate) buffer: Buffer,
}

// By hand, so that a function that lets one go calls this, in place of spelling out each field. So each field is let go of by a call, too.
impl Drop for Replica {
    fn drop(self) {
        let Replica {
            cluster: _,
            index: _,
            n: _,
            view: _,
            log_view: _,
            commit: _,
            applied: _,
            checkpoint: _,
            root: _,
            table,
            state,
            missing,
            first: _,
            parts,
            names,
            ackers,
            heard: _,
            statements,
            idle: _,
            turn: _,
            cursor: _,
            worn,
            saved,
            buffer,
        } = self;
        drop(table);
        drop(state);
        drop(missing);
        drop(parts);
        drop(names);
        drop(ackers);
        drop(statements);
        drop(worn);
        drop(saved);
        drop(buffer);
    }
}

impl Model for Replica {
    ghost use Rattle.vr_rules.specs.Replica.{Replica as Known};

    ghost Value = { Known };

    ghost view = { λ r. record {
      cluster = r.cluster;
      index = r.index;
      n = r.n;
      view = r.view;
      log_view = r.log_view;
      commit = r.commit;
      applied = r.applied;
      checkpoint = r.checkpoint;
      root = r.root;
      table = r.table;
      state = r.state;
      missing = r.missing;
      first = r.first;
      parts = r.parts;
      ackers = r.ackers;
      heard = r.heard;
      statements = r.statements;
      idle = r.idle;
      turn = r.turn;
      cursor = r.cursor;
      worn = r.worn;
      saved = r.saved;
    } };
}

impl Replica {
    ghost use Rattle.std.specs.Prelude.{◌≡◌, IfOk, ◌<◌, ◌≤◌, ◌+◌, ◌^◌};
    ghost use Rattle.vr_rules.specs.Replica.{part_at, head, run, window_end};
    ghost use Rattle.vr_rules.specs.Words.{value_of};
    ghost use Rattle.vr_volatile.specs.Ready.{IsReady, HasWindow};

    /// What is known of an op: nothing of forgotten ones and past the window.
    #[tactic(auto, unfolding(vr_rules::specs::Replica::part_at))]
    pub fn part_at(&self, op: u64) -> Part
        ensures { result ≡ part_at self.now op }
    {
        if op < self.first {
            Part::Nothing
        } else {
            self.parts.get_or((op - self.first) as usize, Part::Nothing)
        }
    }

    /// The last op of its window, which has as many ops above the checkpoint as there are slots.
    pub fn window_end(&self) -> u64
        requires { HasWindow self.now }
        ensures { result ≡ window_end self.now }
    {
        self.checkpoint + SLOTS as u64
    }

    /// The greatest op up to which, above the checkpoint, each header is known.
    #[tactic(auto, using(crate::proofs::Memory::bounds), unfolding(vr_rules::specs::Replica::head))]
    pub fn head(&self) -> u64
        requires { HasWindow self.now }
        ensures head { result ≡ head self.now }
        ensures within { result ≤ window_end self.now }
    {
        let from = (self.checkpoint + 1 - self.first) as usize;
        self.checkpoint + known_from(&self.parts, from) as u64
    }

    /// The known headers that reach the head without a hole.
    #[tactic(auto, using(crate::proofs::Memory::bounds), unfolding(vr_rules::specs::Replica::run, vr_window::specs::Runs::run_of))]
    pub(crate) fn run(&self, alloc: Global) -> Result<HeaderList, AllocError>
        requires { HasWindow self.now }
        ensures { IfOk result (λ hs. hs ≡ run self.now) }
    {
        let count = (self.head() + 1 - self.first) as usize;
        run_of(alloc, &self.parts, count)
    }

    // Its numbers as they are saved next.
    #[tactic(auto, using(crate::proofs::Memory::bounds), unfolding(vr_rules::specs::Words::value_of))]
    fn fields(&self) -> Fields
        requires window { HasWindow self.now }
        requires room { self.now.saved.fields.sequence + 1 < 2 ^ 64 }
        ensures { result ≡ (value_of self.now).fields }
    {
        Fields {
            sequence: self.saved.fields().sequence + 1,
            cluster: self.cluster,
            view: self.view,
            log_view: self.log_view,
            checkpoint: self.checkpoint,
            root_address: self.root.address,
            root_name: self.root.sum,
            commit: self.commit,
            head: self.head(),
            replica: self.index,
            n: self.n,
            version: self.version(),
            mode: self.saved.fields().mode,
        }
    }

    /// What is saved of it.
    #[tactic(auto, using(crate::proofs::Memory::value_is, crate::proofs::Memory::window_of), unfolding(vr_rules::specs::Words::value_of))]
    pub fn value(&self, alloc: Global) -> Result<Super, NoMemory>
        requires ready { IsReady self.now }
        requires room { self.now.saved.fields.sequence + 1 < 2 ^ 64 }
        ensures { IfOk result (λ v. v ≡ value_of self.now) }
    {
        let headers = self.run(alloc)?;
        self.saved.next(alloc, self.fields(), headers, &self.names)
    }
}
