//! What a replicated machine is.
ghost use Rattle.std.specs.Prelude.{◌≡◌, Ok, IfOk, IfErr, OnErr};
ghost use Rattle.vr_state.specs.Table.{IsOrNoMemory};

use crate::{Kv, StateFault};
use std::alloc::Global;
use vr_base::{ByteList, NoMemory};
use vr_header::{Operation, Outcome};

/// A state that operations change, one after the other. Replicas that begin with one state and apply one list of
/// operations have one state and gave one list of outcomes, and each state has one text.
pub trait Machine: Sized {
    ghost use Rattle.std.specs.Prelude.{ℕ, List, Result};
    ghost use Rattle.vr_header.specs.declared.operation.Operation.{Operation};
    ghost use Rattle.vr_header.specs.declared.outcome.Outcome.{Outcome};
    ghost use Rattle.vr_state.specs.declared.fault.StateFault.{StateFault};

    ghost after: { Self → Operation → Self };

    ghost answer: { Self → Operation → Outcome };

    ghost text: { Self → List ℕ };

    ghost decoded: { List ℕ → Result Self StateFault };

    /// Each operation has an outcome at each state. An `Err` is want of memory, and changes nothing.
    fn apply(&mut self, operation: &Operation) -> Result<Outcome, NoMemory>
        ensures outcome { IfOk result (λ outcome. outcome ≡ answer self.old operation.now) }
        ensures state { IfOk result (λ _. self.new ≡ after self.old operation.now) }
        ensures err { OnErr result (self.new ≡ self.old) };

    /// The text of this state, and of no other: what is decoded from it is this state.
    fn encode_state(&self) -> Result<ByteList, NoMemory>
        ensures text { IfOk result (λ bytes. bytes ≡ text self.now) }
        ensures back { IfOk result (λ bytes. decoded bytes ≡ Ok self.now) };

    /// The state of this text, or the first fault of bytes that are none.
    fn decode_state(alloc: Global, bytes: &[u8]) -> Result<Self, StateFault>
        ensures state { IfOk result (λ state. decoded bytes.now ≡ Ok state) }
        ensures text { IfOk result (λ state. text state ≡ bytes.now) }
        ensures fault { IfErr result (IsOrNoMemory (decoded bytes.now)) };
}

impl Machine for Kv {
    ghost use Rattle.vr_state.specs.Kv.{applied};
    ghost use Rattle.vr_state.specs.Pairs.{kv_text, kv_decoded};

    ghost after = { λ m operation. (applied m operation).machine };

    ghost answer = { λ m operation. (applied m operation).outcome };

    ghost text = { kv_text };

    ghost decoded = { kv_decoded };

    fn apply(&mut self, operation: &Operation) -> Result<Outcome, NoMemory> {
        Kv::apply(self, operation)
    }

    fn encode_state(&self) -> Result<ByteList, NoMemory> {
        Kv::encode_state(self)
    }

    fn decode_state(alloc: Global, bytes: &[u8]) -> Result<Kv, StateFault> {
        Kv::decode_state(alloc, bytes)
    }
}
