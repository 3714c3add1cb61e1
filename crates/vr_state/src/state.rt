//! Sessions and machine together.
ghost use Rattle.std.specs.Prelude.{ℕ, true, ◌≡◌, ◌≤◌, ◌+◌, List, [], ◌∷◌, ◌++◌, length, Ok, IfOk, IfErr, OnErr};
ghost use Rattle.vr_header.specs.Made.{Whole};
ghost use Rattle.vr_state.specs.Kv.{IsKv};
ghost use Rattle.vr_state.specs.Sessions.{checked, IsSessions};
ghost use Rattle.vr_state.specs.Table.{IsOrNoMemory};
ghost use Rattle.vr_state.specs.Fitting.{AreWithin, fits};
ghost use Rattle.vr_state.specs.Folds.{empty, applied, executed, answered, state_after, LeavesOneTable, EachOnce};
ghost use Rattle.vr_state.specs.StateTexts.{texts_of, state_decoded, state_bytes, IsFirstFaultOf, FitsPayloads, TextsHaveNumbers};
ghost use Rattle.vr_state.specs.declared.state.State.{State};

use crate::reply::ReplyBody;
use crate::texts::Texts;
use crate::{Kv, SessionAnswer, Sessions, StateFault};
use std::alloc::Global;
use vr_base::{NoMemory, Version};
use vr_header::Entry;

/// What all replicas hold alike after the same entries. Each request is executed at most once in a session.
#[derive(Drop)]
pub struct State {
    pub sessions: Sessions,
    pub machine: Kv,
}

impl State {
    /// No session and no key; it takes no memory.
    pub fn new(alloc: Global) -> State
        ensures { result ≡ empty }
    {
        State {
            sessions: Sessions::new(alloc),
            machine: Kv::new(alloc),
        }
    }

    /// What a request is to the sessions.
    pub fn check(&self, client: u64, request: u32) -> Result<SessionAnswer, NoMemory>
        ensures { IfOk result (λ answer. answer ≡ checked self.now.sessions client request) }
    {
        self.sessions.check(client, request)
    }

    /// Applies an entry: where its request is fresh, its operation changes the machine and the outcome is stored; else
    /// nothing changes. After an `Err`, want of memory, the machine alone may have changed, by a fresh request's operation.
    pub fn apply(&mut self, entry: &Entry) -> Result<ReplyBody, NoMemory>
        ensures reply { IfOk result (λ reply. reply ≡ (applied self.old entry.now).reply) }
        ensures state { IfOk result (λ _. self.new ≡ (applied self.old entry.now).state) }
        ensures fold { (before : List Whole) → self.old ≡ state_after before → IfOk result (λ _. self.new ≡ state_after (before ++ entry.now ∷ [])) }
        ensures each_once { EachOnce }
        ensures err { OnErr result (LeavesOneTable self.old self.new entry.now) }
    {
        let reply = self.take(entry)?;
        Ok(reply)
    }

    #[tactic(auto, unfolding(crate::specs::Folds::applied))]
    fn take(&mut self, entry: &Entry) -> Result<ReplyBody, NoMemory>
        ensures reply { IfOk result (λ reply. reply ≡ (applied self.old entry.now).reply) }
        ensures state { IfOk result (λ _. self.new ≡ (applied self.old entry.now).state) }
        ensures err { OnErr result (LeavesOneTable self.old self.new entry.now) }
    {
        let header = entry.header();
        let answer = self.check(header.client, header.request)?;
        self.answer(entry, answer)
    }

    /// What an entry gives to whose request the sessions answer this.
    #[tactic(auto, unfolding(crate::specs::Folds::answered))]
    fn answer(&mut self, entry: &Entry, answer: SessionAnswer) -> Result<ReplyBody, NoMemory>
        requires { answer ≡ checked self.old.sessions entry.now.header.client entry.now.header.request }
        ensures reply { IfOk result (λ reply. reply ≡ (answered self.old entry.now answer).reply) }
        ensures state { IfOk result (λ _. self.new ≡ (answered self.old entry.now answer).state) }
        ensures err { OnErr result (LeavesOneTable self.old self.new entry.now) }
    {
        match answer {
            SessionAnswer::Fresh => self.execute(entry),
            SessionAnswer::Repeat(outcome, op) => Ok(ReplyBody::Outcome(outcome, op)),
            SessionAnswer::Old => Ok(ReplyBody::Old),
            SessionAnswer::Gap => Ok(ReplyBody::Gap),
            SessionAnswer::Evicted => Ok(ReplyBody::Evicted),
        }
    }

    /// Applies an entry whose request is fresh.
    #[tactic(auto, unfolding(crate::specs::Folds::executed))]
    fn execute(&mut self, entry: &Entry) -> Result<ReplyBody, NoMemory>
        requires { checked self.old.sessions entry.now.header.client entry.now.header.request ≡ SessionAnswer.Fresh }
        ensures reply { IfOk result (λ reply. reply ≡ (executed self.old entry.now).reply) }
        ensures state { IfOk result (λ _. self.new ≡ (executed self.old entry.now).state) }
        ensures err { OnErr result (LeavesOneTable self.old self.new entry.now) }
    {
        let header = entry.header();
        let outcome = self.machine.apply(entry.operation())?;
        self.sessions.apply(
            header.op,
            header.client,
            header.request,
            &outcome,
            header.version,
        )?;
        Ok(ReplyBody::Outcome(outcome, header.op))
    }

    /// Whether a file of this version may hold it: no more sessions than its registers leave, and no longer values in
    /// outcomes and at keys than its own.
    pub fn fits(&self, version: Version) -> bool
        ensures { result ≡ fits version self.now }
    {
        self.sessions.fits(version) && self.machine.fits(version)
    }

    /// The two texts of this state, apart, of at most 586,052 bytes together; of a state that fits version 1, at most 173,156.
    pub fn encode_state(&self) -> Result<Texts, NoMemory>
        ensures texts { IfOk result (λ texts. texts ≡ texts_of self.now) }
        ensures size { IfOk result (λ texts. length texts.sessions + length texts.keys ≤ state_bytes 2) }
        ensures within { IfOk result (λ texts. (version : ℕ) → fits version self.now ≡ true → AreWithin version texts) }
        ensures payloads { IfOk result FitsPayloads }
        ensures back { IfOk result (λ texts. state_decoded texts ≡ Ok self.now) }
        ensures one_text { IfOk result (λ texts. (other : State) → IsSessions other.sessions → IsKv other.machine → texts_of other ≡ texts → other ≡ self.now) }
    {
        let sessions = self.sessions.encode_state()?;
        let keys = self.machine.encode_state()?;
        Ok(Texts { sessions, keys })
    }

    /// The state of these texts, or the first fault: that of the sessions' text before that of the keys'. Each session's op
    /// is at most 2^62.
    pub fn decode_state(alloc: Global, texts: &Texts) -> Result<State, StateFault>
        ensures decoded { IfOk result (λ state. state_decoded texts.now ≡ Ok state) }
        ensures texts { IfOk result (λ state. texts_of state ≡ texts.now) }
        ensures numbers { TextsHaveNumbers }
        ensures fault { IfErr result (IsOrNoMemory (state_decoded texts.now)) }
        ensures first { IfErr result (IsFirstFaultOf texts.now) }
    {
        let sessions = Sessions::decode_state(alloc, texts.sessions.as_slice())?;
        let _held = sessions.len();
        let machine = Kv::decode_state(alloc, texts.keys.as_slice())?;
        Ok(State { sessions, machine })
    }
}
