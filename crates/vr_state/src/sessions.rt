//! The sessions of a replica.
ghost use Rattle.std.specs.Prelude.{◌≡◌, ℕ, true, List, [], ◌∷◌, ◌++◌, ◌≤◌, length, Ok, IfOk, IfErr, OnOk, OnErr};
ghost use Rattle.std.specs.Ordering.{nat_cmp};
ghost use Rattle.vr_base.specs.Versions.{session_limit};
ghost use Rattle.vr_state.specs.Fitting.{sessions_fit};
ghost use Rattle.vr_state.specs.Table.{IsOrNoMemory, IsFirstFault};
ghost use Rattle.vr_state.specs.Asks.{sessions_after, AtMostOnce};
ghost use Rattle.vr_state.specs.Effects.{Effect};
ghost use Rattle.vr_state.specs.Sessions.{Map, Asked, checked, applied, Fits, OutcomeFits, IsSessions, HaveNumbers, last_op};
ghost use Rattle.vr_state.specs.SessionTexts.{session_text, sessions_text, sessions_bytes, sessions_decoded};

use crate::StateFault;
use crate::session::{SessionAnswer, judge, new_session};
use crate::session_codec::{encode_table, read_table};
use crate::session_table::{SessionTable, insert, oldest, outcomes_fit, remove};
use std::alloc::Global;
use std::marker::Model;
use vr_base::{ByteList, NoMemory, Version};
use vr_header::Outcome;

/// How many sessions are held at most, whatever the versions of the entries that began them.
pub const SESSIONS: u16 = 64;

/// A finite map from clients to their sessions, which contracts see as the list of its entries with ascending clients.
#[derive(Drop)]
pub struct Sessions {
    alloc: Global,
    table: SessionTable,
}

impl Model for Sessions {
    ghost use Rattle.vr_state.specs.Sessions.{Map, IsSessions};

    ghost Value = { Map };

    ghost view = { λ s. s.table.entries };

    ghost invariant = { λ s. IsSessions s.table.entries };
}

impl Sessions {
    /// No session; it takes no memory.
    pub fn new(alloc: Global) -> Sessions
        ensures { result ≡ [] }
    {
        Sessions {
            alloc,
            table: SessionTable::new(alloc),
        }
    }

    /// How many sessions are held.
    pub fn len(&self) -> usize
        ensures count { result ≡ length self.now }
        ensures sessions { IsSessions self.now }
    {
        self.table.len()
    }

    /// What a request is to its client's session. With a last number q, number q is `Repeat` with the stored outcome and
    /// op, a lower one `Old`, q + 1 `Fresh`, a higher one `Gap`; without a session number 0 is `Fresh` and any other
    /// `Evicted`.
    #[tactic(auto, using(crate::proofs::Lookups::lookup_is_find), unfolding(crate::specs::Sessions::checked))]
    pub fn check(&self, client: u64, request: u32) -> Result<SessionAnswer, NoMemory>
        ensures { IfOk result (λ answer. answer ≡ checked self.now client request) }
    {
        match self.table.get(&client) {
            Some(session) => judge(self.alloc, session, request),
            None => {
                if request == 0 {
                    return Ok(SessionAnswer::Fresh);
                }
                Ok(SessionAnswer::Evicted)
            }
        }
    }

    /// Stores a fresh request that was executed as entry `op` of the log, at most 2^62, what it gave, and by an entry of which
    /// version. Where as many sessions are held as the version leaves, 32 or 64, or more, a register takes out one, whose last op
    /// is least, of several that of the least client. An `Err` is want of memory, and changes nothing.
    pub fn apply(
        &mut self,
        op: u64,
        client: u64,
        request: u32,
        outcome: &Outcome,
        version: Version,
    ) -> Result<(), NoMemory>
        requires fresh { checked self.old client request ≡ SessionAnswer.Fresh }
        requires number { op ≤ last_op }
        ensures ok { OnOk result (self.new ≡ applied self.old (record { op = op; client = client; request = request; outcome = outcome.now; version = version })) }
        ensures effect { OnOk result (Effect self.old self.new (record { op = op; client = client; request = request; outcome = outcome.now; version = version })) }
        ensures fold { (before : List Asked) → self.old ≡ sessions_after before → OnOk result (self.new ≡ sessions_after (before ++ record { op = op; client = client; request = request; outcome = outcome.now; version = version } ∷ [])) }
        ensures at_most_once { AtMostOnce }
        ensures err { OnErr result (self.new ≡ self.old) }
    {
        let _held = self.len();
        self.store(op, client, request, outcome, version)?;
        Ok(())
    }

    fn store(
        &mut self,
        op: u64,
        client: u64,
        request: u32,
        outcome: &Outcome,
        version: Version,
    ) -> Result<(), NoMemory>
        requires number { op ≤ last_op }
        ensures fits { OnOk result (OutcomeFits outcome.now) }
        ensures ok { OnOk result (self.new ≡ applied self.old (record { op = op; client = client; request = request; outcome = outcome.now; version = version })) }
        ensures err { OnErr result (self.new ≡ self.old) }
    {
        let session = new_session(self.alloc, op, request, outcome)?;
        if self.table.len() < version.session_limit() {
            insert(&mut self.table, client, session)?;
            return Ok(());
        }
        if self.table.contains_key(&client) {
            insert(&mut self.table, client, session)?;
            return Ok(());
        }
        match oldest(&self.table) {
            None => insert(&mut self.table, client, session)?,
            Some((least, _)) => {
                insert(&mut self.table, client, session)?;
                remove(&mut self.table, least);
            }
        }
        Ok(())
    }

    /// Whether a file of this version may hold them.
    #[tactic(auto, unfolding(crate::specs::Fitting::sessions_fit))]
    pub fn fits(&self, version: Version) -> bool
        ensures { result ≡ sessions_fit version self.now }
    {
        self.table.len() <= version.session_limit() && outcomes_fit(&self.table, version)
    }

    /// The text of these sessions, of at most 193,474 bytes: how many, in two bytes, and for each by ascending clients the
    /// client in eight bytes, the request in four, the op in eight, the outcome. It is made with one allocation.
    pub fn encode_state(&self) -> Result<ByteList, NoMemory>
        ensures text { IfOk result (λ text. text ≡ sessions_text self.now) }
        ensures length { IfOk result (λ text. length text ≤ sessions_bytes 2) }
        ensures within { IfOk result (λ text. (version : ℕ) → sessions_fit version self.now ≡ true → length text ≤ sessions_bytes version) }
        ensures back { IfOk result (λ text. sessions_decoded text ≡ Ok self.now) }
        ensures one_text { (other : Map) → IsSessions other → sessions_text other ≡ sessions_text self.now → other ≡ self.now }
    {
        let text = encode_table(self.alloc, &self.table)?;
        Ok(text)
    }

    /// The sessions of this text, each with an op of at most 2^62, or the first fault from the front.
    pub fn decode_state(alloc: Global, bytes: &[u8]) -> Result<Sessions, StateFault>
        ensures decoded { IfOk result (λ sessions. sessions_decoded bytes.now ≡ Ok sessions) }
        ensures text { IfOk result (λ sessions. sessions_text sessions ≡ bytes.now) }
        ensures numbers { IfOk result HaveNumbers }
        ensures fault { IfErr result (IsOrNoMemory (sessions_decoded bytes.now)) }
        ensures first { IfErr result (IsFirstFault nat_cmp session_text Fits (session_limit 2) bytes.now) }
    {
        let table = read_table(alloc, bytes)?;
        Ok(Sessions { alloc, table })
    }
}
