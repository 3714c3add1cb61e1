//! The machine as a sorted vector of pairs.
ghost use Rattle.std.specs.Prelude.{◌≡◌, ℕ, true, List, [], ◌∷◌, ◌++◌, ◌≤◌, length, Ok, IfOk, IfErr, OnErr};
ghost use Rattle.vr_header.specs.declared.operation.Operation.{Operation};
ghost use Rattle.vr_state.specs.Fitting.{keys_fit};
ghost use Rattle.vr_state.specs.Kv.{applied, putting, getting, deleting, machine_after, IsKv};
ghost use Rattle.vr_state.specs.Meaning.{Means};
ghost use Rattle.vr_state.specs.Pairs.{Fits, pair_text, kv_text, kv_bytes, kv_decoded};
ghost use Rattle.vr_state.specs.Places.{IsAt, IsGap};
ghost use Rattle.vr_state.specs.Finite.{byte_order};
ghost use Rattle.vr_state.specs.Table.{IsOrNoMemory, IsFirstFault};

use crate::StateFault;
use crate::kv_decode::read_pairs;
use crate::kv_encode::encode_pairs;
use crate::pair::{Pair, new_pair, value_fits};
use std::alloc::Global;
use std::marker::Model;
use vr_base::{ByteList, NoMemory, Version};
use vr_header::{Key, Operation, Outcome, Value};

/// How many keys a machine holds at most.
pub const KEYS: usize = 128;

/// A finite map of keys to values, which contracts see as the list of its pairs with the keys in byte order.
#[derive(Debug, Drop)]
pub struct Kv {
    alloc: Global,
    pairs: Vec<Pair>,
}

impl Model for Kv {
    ghost use Rattle.vr_state.specs.Kv.{Map, IsKv};

    ghost Value = { Map };

    ghost view = { λ m. m.pairs.items };

    ghost invariant = { λ m. IsKv m.pairs.items };
}

impl Kv {
    /// The machine without a key; it takes no memory.
    pub fn new(alloc: Global) -> Kv
        ensures { result ≡ [] }
    {
        Kv {
            alloc,
            pairs: Vec::new(alloc),
        }
    }

    /// How many keys are there.
    pub fn len(&self) -> usize
        ensures count { result ≡ length self.now }
        ensures state { IsKv self.now }
    {
        self.pairs.len()
    }

    /// Applies an operation. A put of a new key is `Full` exactly where 128 keys are there, and then changes nothing;
    /// a get or a delete is `Absent` exactly where the key isn't there. An `Err` is want of memory, and changes nothing.
    pub fn apply(&mut self, operation: &Operation) -> Result<Outcome, NoMemory>
        ensures outcome { IfOk result (λ outcome. outcome ≡ (applied self.old operation.now).outcome) }
        ensures machine { IfOk result (λ _. self.new ≡ (applied self.old operation.now).machine) }
        ensures meaning { IfOk result (λ outcome. Means self.old operation.now outcome self.new) }
        ensures fold { (before : List Operation) → self.old ≡ machine_after before → IfOk result (λ _. self.new ≡ machine_after (before ++ operation.now ∷ [])) }
        ensures err { OnErr result (self.new ≡ self.old) }
    {
        let _keys = self.len();
        let outcome = self.change(operation)?;
        Ok(outcome)
    }

    #[tactic(auto, unfolding(crate::specs::Kv::applied, crate::specs::Kv::getting))]
    fn change(&mut self, operation: &Operation) -> Result<Outcome, NoMemory>
        ensures outcome { IfOk result (λ outcome. outcome ≡ (applied self.old operation.now).outcome) }
        ensures machine { IfOk result (λ _. self.new ≡ (applied self.old operation.now).machine) }
        ensures err { OnErr result (self.new ≡ self.old) }
    {
        match operation {
            Operation::Register => Ok(Outcome::Session),
            Operation::Put(key, value) => self.put(key, value),
            Operation::Get(key) => self.get(key),
            Operation::Delete(key) => Ok(self.delete(key)),
        }
    }

    /// Whether a file of this version may hold it.
    #[tactic(auto, unfolding(crate::specs::Fitting::keys_fit))]
    pub fn fits(&self, version: Version) -> bool
        ensures { result ≡ keys_fit version self.now }
    {
        self.pairs.iter().all(|pair| value_fits(&pair.1, version))
    }

    /// The text of this machine, of at most 392,578 bytes: how many keys, in two bytes, and for each key in byte order
    /// its length in one byte, its value's in two, the key, the value. It is made with one allocation.
    pub fn encode_state(&self) -> Result<ByteList, NoMemory>
        ensures text { IfOk result (λ text. text ≡ kv_text self.now) }
        ensures length { IfOk result (λ text. length text ≤ kv_bytes 2) }
        ensures within { IfOk result (λ text. (version : ℕ) → keys_fit version self.now ≡ true → length text ≤ kv_bytes version) }
        ensures back { IfOk result (λ text. kv_decoded text ≡ Ok self.now) }
        ensures one_text { (other : List (List ℕ × List ℕ)) → IsKv other → kv_text other ≡ kv_text self.now → other ≡ self.now }
    {
        encode_pairs(self.alloc, &self.pairs)
    }

    /// The machine of this text, or the first fault from the front.
    pub fn decode_state(alloc: Global, bytes: &[u8]) -> Result<Kv, StateFault>
        ensures decoded { IfOk result (λ machine. kv_decoded bytes.now ≡ Ok machine) }
        ensures text { IfOk result (λ machine. kv_text machine ≡ bytes.now) }
        ensures fault { IfErr result (IsOrNoMemory (kv_decoded bytes.now)) }
        ensures first { IfErr result (IsFirstFault byte_order pair_text Fits 128 bytes.now) }
    {
        let pairs = read_pairs(alloc, bytes)?.into_vec();
        Ok(Kv { alloc, pairs })
    }

    fn put(&mut self, key: &Key, value: &Value) -> Result<Outcome, NoMemory>
        ensures outcome { IfOk result (λ outcome. outcome ≡ (putting self.old key.now value.now).outcome) }
        ensures machine { IfOk result (λ _. self.new ≡ (putting self.old key.now value.now).machine) }
        ensures err { OnErr result (self.new ≡ self.old) }
    {
        match self.search(key) {
            Ok(at) => self.replace(at, key, value),
            Err(at) => self.insert(at, key, value),
        }
    }

    fn get(&self, key: &Key) -> Result<Outcome, NoMemory>
        ensures { IfOk result (λ outcome. outcome ≡ (getting self.now key.now).outcome) }
    {
        match self.search(key) {
            Ok(at) => Ok(Outcome::Value(self.pairs[at].1.try_clone(self.alloc)?)),
            Err(_) => Ok(Outcome::Absent),
        }
    }

    fn delete(&mut self, key: &Key) -> Outcome
        ensures outcome { result ≡ (deleting self.old key.now).outcome }
        ensures machine { self.new ≡ (deleting self.old key.now).machine }
    {
        match self.search(key) {
            Ok(at) => {
                let _pair = self.pairs.remove(at);
                Outcome::Ok
            }
            Err(_) => Outcome::Absent,
        }
    }

    /// Gives the key at this place a new value.
    fn replace(&mut self, at: usize, key: &Key, value: &Value) -> Result<Outcome, NoMemory>
        requires { IsAt byte_order key.now self.old at }
        ensures outcome { IfOk result (λ outcome. outcome ≡ (putting self.old key.now value.now).outcome) }
        ensures machine { IfOk result (λ _. self.new ≡ (putting self.old key.now value.now).machine) }
        ensures err { OnErr result (self.new ≡ self.old) }
    {
        let copy = Value::from_bytes(self.alloc, value.as_slice())?;
        self.pairs[at].1 = copy;
        Ok(Outcome::Ok)
    }

    /// Puts a new key into this gap, if there is room.
    fn insert(&mut self, at: usize, key: &Key, value: &Value) -> Result<Outcome, NoMemory>
        requires { IsGap byte_order key.now self.old at }
        ensures outcome { IfOk result (λ outcome. outcome ≡ (putting self.old key.now value.now).outcome) }
        ensures machine { IfOk result (λ _. self.new ≡ (putting self.old key.now value.now).machine) }
        ensures err { OnErr result (self.new ≡ self.old) }
    {
        if self.pairs.len() >= KEYS {
            return Ok(Outcome::Full);
        }
        let pair = new_pair(self.alloc, key.as_slice(), value.as_slice())?;
        self.pairs.insert(at, pair)?;
        Ok(Outcome::Ok)
    }

    /// Where the key is, or the gap where it would stand.
    fn search(&self, key: &Key) -> Result<usize, usize>
        ensures found { IfOk result (IsAt byte_order key.now self.now) }
        ensures absent { IfErr result (IsGap byte_order key.now self.now) }
        ensures state { IsKv self.now }
    {
        self.pairs
            .binary_search_by(|pair| pair.0.as_slice().cmp(&key.as_slice()))
    }
}
