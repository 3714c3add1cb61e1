//! Entries of the log.
ghost use Rattle.vr_header.specs.Names.{header_name};
ghost use Rattle.vr_header.specs.Spelling.{decoded};
ghost use Rattle.std.specs.Prelude.{Ok, length, drop, ◌≡◌, ◌+◌, ◌-◌, ◌^◌, ◌<◌, ◌≤◌, ◌++◌, Some, IfOk, IfSome, OnOk, OnErr, is_some, true};
ghost use Rattle.std.specs.Option.{option_map};
ghost use Rattle.vr_base.specs.Bytes.{KeepsFront, name_of};
ghost use Rattle.vr_header.specs.Bodies.{IsOperation};
ghost use Rattle.vr_header.specs.Made.{IsEntry, IsRequest, Whole, entry_bytes, entry_of, made_by};
ghost use Rattle.vr_header.specs.Spelling.{IsHeader};

use crate::body::owned_operation;
use crate::codec::spelled;
use crate::view::{entry_at, entry_by, read_entry};
use crate::{Command, Header, Operation};
use std::alloc::{AllocError, Global};
use std::marker::Model;
use vr_base::{Sum, sum_at};

/// An entry of the log: its header with its operation.
#[derive(Debug, Drop, PartialEq, Eq)]
pub struct Entry {
    header: Header,
    operation: Operation,
    name: Sum,
}

impl Model for Entry {
    ghost use Rattle.std.specs.Prelude.{◌≡◌};
    ghost use Rattle.vr_header.specs.Made.{IsEntry, Whole};
    ghost use Rattle.vr_header.specs.Names.{header_name};

    ghost Value = { Whole };

    ghost view = { λ e. record { header = e.header; operation = e.operation } };

    ghost invariant = { λ e. IsEntry (record { header = e.header; operation = e.operation }) × (e.name ≡ header_name e.header) };

    ghost inverse = { λ e. record { header = e.header; operation = e.operation; name = header_name e.header } };
}

impl Entry {
    /// The entry of this header and this operation.
    pub fn new(header: Header, operation: Operation) -> Entry
        requires { IsEntry (record { header = header; operation = operation }) }
        ensures { result ≡ record { header = header; operation = operation } }
    {
        let name = header.name();
        Entry {
            header,
            operation,
            name,
        }
    }

    // The entry of this header, of which the name is known, and this operation.
    fn named(header: Header, operation: Operation, name: Sum) -> Entry
        requires entry { IsEntry (record { header = header; operation = operation }) }
        requires name { name ≡ header_name header }
        ensures { result ≡ record { header = header; operation = operation } }
    {
        Entry {
            header,
            operation,
            name,
        }
    }

    /// The name of its header.
    pub fn name(&self) -> Sum
        ensures { result ≡ header_name self.now.header }
    {
        self.name
    }

    /// The entry of a request, made in this view for this op, on the entry of this name.
    #[tactic(auto, using(crate::proofs::Putting::body_fits))]
    pub fn of_request(
        request: &Header,
        request_name: Sum,
        operation: Operation,
        view: u32,
        op: u64,
        parent: Sum,
    ) -> Entry
        requires request { IsRequest request.now operation }
        requires name { request_name ≡ header_name request.now }
        requires view { view < 2 ^ 32 - 1 }
        requires op { (1 ≤ op) × (op ≤ 2 ^ 62) }
        ensures { result ≡ made_by name_of request.now operation view op parent }
    {
        let header = Header {
            parent,
            request_name,
            view,
            op,
            size: operation.size(),
            command: Command::Entry,
            ..*request
        };
        Entry::new(header, operation)
    }

    pub fn header(&self) -> Header
        ensures value { result ≡ self.now.header }
        ensures entry { IsEntry self.now }
    {
        self.header
    }

    pub fn operation(&self) -> &Operation
        ensures { result.now ≡ self.now.operation }
    {
        &self.operation
    }

    /// A copy of the entry.
    pub fn try_clone(&self, alloc: Global) -> Result<Entry, AllocError>
        ensures { IfOk result (λ copy. copy ≡ self.now) }
    {
        let header = self.header();
        Ok(Entry::named(header, self.operation().try_clone(alloc)?, self.name))
    }

    /// Adds the spelling at the end: the header, and the operation after it. An `Err` may have added
    /// some of it.
    #[tactic(auto, using(std::proofs::lemmas::Grind::common_steps, vr_base::proofs::Writing::kept_before), unfolding(crate::specs::Made::entry_bytes))]
    pub fn write(&self, to: &mut Vec<u8>) -> Result<(), AllocError>
        ensures ok { OnOk result (to.new.items ≡ to.old.items ++ entry_bytes self.now) }
        ensures front { OnErr result (KeepsFront to.old.items to.new.items) }
        ensures header { OnOk result (IsHeader self.now.header) }
        ensures operation { OnOk result (IsOperation self.now.header.version self.now.operation) }
    {
        let header = spelled(&self.header(), self.name);
        to.extend_from_slice(&header)?;
        self.operation().write_body(to)
    }

    /// The header of the entry that the bytes spell, `None` exactly where they spell none.
    pub fn header_in(bytes: &[u8]) -> Option<Header>
        ensures exact { result ≡ option_map (λ e. e.header) (entry_of bytes.now) }
        ensures found { IfSome (entry_of bytes.now) (λ e. (bytes.now ≡ entry_bytes e) × IsEntry e × IsHeader e.header) }
        ensures only { (e : Whole) → IsEntry e → IsHeader e.header → bytes.now ≡ entry_bytes e → entry_of bytes.now ≡ Some e }
    {
        match read_entry(bytes) {
            Some(view) => Some(view.header),
            None => None,
        }
    }

    /// The entry that the bytes spell, where they are known to spell one; nothing is hashed.
    pub fn from_bytes(alloc: Global, bytes: &[u8]) -> Result<Entry, AllocError>
        requires { is_some (entry_of bytes.now) ≡ true }
        ensures { IfOk result (λ entry. entry_of bytes.now ≡ Some entry) }
    {
        let view = entry_at(bytes);
        let operation = owned_operation(alloc, view.operation)?;
        Ok(Entry::named(view.header, operation, sum_at(bytes, 0)))
    }

    /// The header of the entry that the bytes spell, as `header_in` gives it, where the names of bytes 16 to 127 and of those from 128 on are known.
    pub fn header_by(bytes: &[u8], header: Header, body: Sum) -> Option<Header>
        requires long { 128 ≤ length bytes.now }
        requires header { decoded bytes.now ≡ Ok header }
        requires body { body.0 ≡ name_of (drop 128 bytes.now) }
        ensures { result ≡ option_map (λ e. e.header) (entry_of bytes.now) }
    {
        match entry_by(bytes, header, body) {
            Some(view) => Some(view.header),
            None => None,
        }
    }
}
