//! The bytes of operations and outcomes, both ways.
ghost use Rattle.std.specs.Prelude.{◌≡◌, ◌++◌, ◌+◌, ◌≤◌, ◌∷◌, Some, IfOk, IfSome, IsTrue, OnOk, OnErr, is_some, length};
ghost use Rattle.vr_base.specs.Bytes.{KeepsFront, name_of};
ghost use Rattle.vr_header.specs.declared.operation.Operation.{Operation};
ghost use Rattle.vr_header.specs.declared.operation.Operation.TheVariants as operation;
ghost use Rattle.vr_header.specs.declared.outcome.Outcome.{Outcome};
ghost use Rattle.vr_header.specs.declared.outcome.Outcome.TheVariants as outcome;
ghost use Rattle.vr_header.specs.Bodies.{IsOperation, IsOutcome, operation_bytes, operation_of, outcome_bytes, outcome_of};
ghost use Rattle.vr_header.specs.Text.{is_text};
ghost use Rattle.vr_header.specs.Views.{operation_seen, outcome_seen};

use crate::view::{OperationView, OutcomeView, read_operation, read_outcome};
use crate::{HEADER_SIZE, Key, Operation, Outcome, Size, Value};
use std::alloc::{AllocError, Global};
use vr_base::{ByteList, Sum, Version, checksum, checksum_of_parts};

// Adds the spelling of a put. An `Err` may have added some of it.
#[tactic(auto, using(std::proofs::lemmas::Grind::common_steps, vr_base::proofs::Writing::kept_before), unfolding(crate::specs::Bodies::operation_bytes, vr_base::specs::Bytes::bytes16))]
fn write_put(key: &Key, value: &Value, to: &mut Vec<u8>) -> Result<(), AllocError>
    ensures ok { OnOk result (to.new.items ≡ to.old.items ++ operation_bytes (operation.Put key.now value.now)) }
    ensures front { OnErr result (KeepsFront to.old.items to.new.items) }
    ensures texts { IsOperation 2 (operation.Put key.now value.now) }
{
    let [high, low] = (value.as_slice().len() as u16).to_be_bytes();
    to.extend_from_slice(&[2, key.as_slice().len() as u8, high, low])?;
    to.extend_from_slice(key.as_slice())?;
    to.extend_from_slice(value.as_slice())
}

// Adds a key after this code, as an operation on one key is spelled. An `Err` may have added some of it.
#[tactic(auto, using(std::proofs::lemmas::Grind::common_steps, vr_base::proofs::Writing::kept_before))]
fn write_keyed(code: u8, key: &Key, to: &mut Vec<u8>) -> Result<(), AllocError>
    ensures ok { OnOk result (to.new.items ≡ to.old.items ++ (code ∷ length key.now ∷ key.now)) }
    ensures front { OnErr result (KeepsFront to.old.items to.new.items) }
    ensures text { IsTrue (is_text 64 key.now) }
{
    to.extend_from_slice(&[code, key.as_slice().len() as u8])?;
    to.extend_from_slice(key.as_slice())
}

// Adds the spelling of an outcome with this value. An `Err` may have added some of it.
#[tactic(auto, using(std::proofs::lemmas::Grind::common_steps, vr_base::proofs::Writing::kept_before), unfolding(crate::specs::Bodies::outcome_bytes, vr_base::specs::Bytes::bytes16))]
fn write_value(value: &Value, to: &mut Vec<u8>) -> Result<(), AllocError>
    ensures ok { OnOk result (to.new.items ≡ to.old.items ++ outcome_bytes (outcome.Value value.now)) }
    ensures front { OnErr result (KeepsFront to.old.items to.new.items) }
    ensures text { IsOutcome 2 (outcome.Value value.now) }
{
    let [high, low] = (value.as_slice().len() as u16).to_be_bytes();
    to.extend_from_slice(&[5, high, low])?;
    to.extend_from_slice(value.as_slice())
}

impl Operation {
    /// The one spelling of an operation, of at most 3,068 bytes, as a list of its own. It is for whoever keeps or sends a body alone: entries
    /// and messages add it with `write_body`.
    pub fn encode_body(&self, alloc: Global) -> Result<ByteList, AllocError>
        ensures bytes { IfOk result (λ body. body ≡ operation_bytes self.now) }
    {
        let mut body = Vec::with_capacity(alloc, 3068)?;
        self.write_body(&mut body)?;
        Ok(ByteList::from_vec(body))
    }

    /// Adds the spelling at the end. An `Err` may have added some of it.
    #[tactic(auto, using(std::proofs::lemmas::Grind::common_steps, vr_base::proofs::Writing::kept_before), unfolding(crate::specs::Bodies::operation_bytes, vr_base::specs::Bytes::bytes16))]
    pub fn write_body(&self, to: &mut Vec<u8>) -> Result<(), AllocError>
        ensures ok { OnOk result (to.new.items ≡ to.old.items ++ operation_bytes self.now) }
        ensures front { OnErr result (KeepsFront to.old.items to.new.items) }
        ensures texts { IsOperation 2 self.now }
    {
        match self {
            Operation::Register => to.extend_from_slice(&[1]),
            Operation::Put(key, value) => write_put(key, value, to),
            Operation::Get(key) => write_keyed(3, key, to),
            Operation::Delete(key) => write_keyed(4, key, to),
        }
    }

    /// The name of the spelling.
    #[tactic(auto, using(std::proofs::lemmas::Grind::common_steps), unfolding(crate::specs::Bodies::operation_bytes, vr_base::specs::Bytes::bytes16))]
    pub fn body_name(&self) -> Sum
        ensures { result.0 ≡ name_of (operation_bytes self.now) }
    {
        match self {
            Operation::Register => checksum(&[1]),
            Operation::Put(key, value) => {
                let [high, low] = (value.as_slice().len() as u16).to_be_bytes();
                checksum_of_parts(
                    &[2, key.as_slice().len() as u8, high, low],
                    key.as_slice(),
                    value.as_slice(),
                )
            }
            Operation::Get(key) => checksum_of_parts(
                &[3, key.as_slice().len() as u8],
                key.as_slice(),
                &[],
            ),
            Operation::Delete(key) => checksum_of_parts(
                &[4, key.as_slice().len() as u8],
                key.as_slice(),
                &[],
            ),
        }
    }

    /// How many bytes a header with this spelling after it has, from 129 to 3,196.
    #[tactic(auto, using(std::proofs::lemmas::Grind::common_steps), unfolding(crate::specs::Bodies::operation_bytes, vr_base::specs::Bytes::bytes16))]
    pub fn size(&self) -> Size
        ensures value { result ≡ 128 + length (operation_bytes self.now) }
        ensures least { 129 ≤ result }
        ensures most { result ≤ 3196 }
    {
        let body = match self {
            Operation::Register => 1,
            Operation::Put(key, value) => 4 + key.as_slice().len() + value.as_slice().len(),
            Operation::Get(key) | Operation::Delete(key) => 2 + key.as_slice().len(),
        };
        Size::new((HEADER_SIZE + body) as u32)
    }

    /// Whether the bytes spell an operation.
    pub fn is_body(bytes: &[u8], version: Version) -> bool
        ensures { result ≡ is_some (operation_of version bytes.now) }
    {
        read_operation(version, bytes).is_some()
    }

    /// The operation of this version that the bytes spell, `None` exactly where they spell none.
    pub fn decode_body(
        alloc: Global,
        bytes: &[u8],
        version: Version,
    ) -> Result<Option<Operation>, AllocError>
        ensures exact { IfOk result (λ read. read ≡ operation_of version bytes.now) }
        ensures found { IfSome (operation_of version bytes.now) (λ o. (bytes.now ≡ operation_bytes o) × IsOperation version o) }
        ensures only { (o : Operation) → IsOperation version o → bytes.now ≡ operation_bytes o → operation_of version bytes.now ≡ Some o }
    {
        made_operation(alloc, bytes, version)
    }
}

impl Outcome {
    /// The one spelling of an outcome, of at most 3,003 bytes, as a list of its own. It is for whoever keeps or sends a body alone: sessions
    /// and replies add it with `write_body`.
    pub fn encode_body(&self, alloc: Global) -> Result<ByteList, AllocError>
        ensures bytes { IfOk result (λ body. body ≡ outcome_bytes self.now) }
    {
        let mut body = Vec::with_capacity(alloc, 3003)?;
        self.write_body(&mut body)?;
        Ok(ByteList::from_vec(body))
    }

    /// Adds the spelling at the end. An `Err` may have added some of it.
    #[tactic(auto, using(std::proofs::lemmas::Grind::common_steps, vr_base::proofs::Writing::kept_before), unfolding(crate::specs::Bodies::outcome_bytes, vr_base::specs::Bytes::bytes16))]
    pub fn write_body(&self, to: &mut Vec<u8>) -> Result<(), AllocError>
        ensures ok { OnOk result (to.new.items ≡ to.old.items ++ outcome_bytes self.now) }
        ensures front { OnErr result (KeepsFront to.old.items to.new.items) }
        ensures texts { IsOutcome 2 self.now }
    {
        match self {
            Outcome::Session => to.extend_from_slice(&[1]),
            Outcome::Ok => to.extend_from_slice(&[2]),
            Outcome::Full => to.extend_from_slice(&[3]),
            Outcome::Absent => to.extend_from_slice(&[4]),
            Outcome::Value(value) => write_value(value, to),
        }
    }

    /// Whether the bytes spell an outcome.
    pub fn is_body(bytes: &[u8], version: Version) -> bool
        ensures { result ≡ is_some (outcome_of version bytes.now) }
    {
        read_outcome(version, bytes).is_some()
    }

    /// The outcome of this version that the bytes spell, `None` exactly where they spell none.
    pub fn decode_body(
        alloc: Global,
        bytes: &[u8],
        version: Version,
    ) -> Result<Option<Outcome>, AllocError>
        ensures exact { IfOk result (λ read. read ≡ outcome_of version bytes.now) }
        ensures found { IfSome (outcome_of version bytes.now) (λ o. (bytes.now ≡ outcome_bytes o) × IsOutcome version o) }
        ensures only { (o : Outcome) → IsOutcome version o → bytes.now ≡ outcome_bytes o → outcome_of version bytes.now ≡ Some o }
    {
        made_outcome(alloc, bytes, version)
    }
}

fn made_operation(
    alloc: Global,
    bytes: &[u8],
    version: Version,
) -> Result<Option<Operation>, AllocError>
    ensures { IfOk result (λ read. read ≡ operation_of version bytes.now) }
{
    match read_operation(version, bytes) {
        Some(view) => Ok(Some(owned_operation(alloc, view)?)),
        None => Ok(None),
    }
}

pub(crate) fn owned_operation(
    alloc: Global,
    view: OperationView<'_>,
) -> Result<Operation, AllocError>
    requires { IsOperation 2 (operation_seen view) }
    ensures { IfOk result (λ operation. operation ≡ operation_seen view.entry) }
{
    match view {
        OperationView::Register => Ok(Operation::Register),
        OperationView::Put(key, value) => {
            Ok(Operation::Put(
                Key::from_bytes(alloc, key)?,
                Value::from_bytes(alloc, value)?,
            ))
        }
        OperationView::Get(key) => Ok(Operation::Get(Key::from_bytes(alloc, key)?)),
        OperationView::Delete(key) => Ok(Operation::Delete(Key::from_bytes(alloc, key)?)),
    }
}

fn made_outcome(
    alloc: Global,
    bytes: &[u8],
    version: Version,
) -> Result<Option<Outcome>, AllocError>
    ensures { IfOk result (λ read. read ≡ outcome_of version bytes.now) }
{
    match read_outcome(version, bytes) {
        Some(view) => Ok(Some(owned_outcome(alloc, view)?)),
        None => Ok(None),
    }
}

fn owned_outcome(alloc: Global, view: OutcomeView<'_>) -> Result<Outcome, AllocError>
    requires { IsOutcome 2 (outcome_seen view) }
    ensures { IfOk result (λ outcome. outcome ≡ outcome_seen view.entry) }
{
    match view {
        OutcomeView::Session => Ok(Outcome::Session),
        OutcomeView::Ok => Ok(Outcome::Ok),
        OutcomeView::Full => Ok(Outcome::Full),
        OutcomeView::Absent => Ok(Outcome::Absent),
        OutcomeView::Value(value) => Ok(Outcome::Value(Value::from_bytes(alloc, value)?)),
    }
}
