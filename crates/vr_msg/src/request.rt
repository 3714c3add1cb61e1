//! Requests of clients.
ghost use Rattle.std.specs.Prelude.{◌≡◌};
ghost use Rattle.vr_base.specs.Bytes.{name_of};
ghost use Rattle.vr_header.specs.Bodies.{operation_bytes};
ghost use Rattle.vr_header.specs.Names.{header_name, request_header};
ghost use Rattle.vr_msg.specs.Asking.{AreNames, IsRequest};

use std::marker::Model;
use vr_base::{Sum, Version};
use vr_header::{Header, Operation};

/// What a request says.
#[derive(Debug, Drop, PartialEq, Eq)]
pub struct RequestFields {
    /// Of the frame, and of the entry that is made of it.
    pub version: Version,
    /// The number of the group.
    pub cluster: u64,
    /// The number of the client.
    pub client: u64,
    /// The number of the request, 0 for `Register` and from 1 on for the others.
    pub request: u32,
    pub operation: Operation,
}

/// A request of a client; `Register` stands exactly with number 0, and the operation fits the version.
#[derive(Debug, Drop)]
pub struct Request {
    fields: RequestFields,
    names: Option<Names>,
}

/// The names of a request's operation and header.
#[derive(Clone, Copy, Debug, PartialEq, Eq)]
pub struct Names {
    pub body: Sum,
    pub header: Sum,
}

impl Model for Request {
    ghost use Rattle.vr_msg.specs.declared.request.RequestFields.{RequestFields};
    ghost use Rattle.std.specs.Prelude.{IfSome};
    ghost use Rattle.vr_msg.specs.Asking.{AreNames, IsRequest};

    ghost Value = { RequestFields };

    ghost view = { λ r. r.fields };

    ghost invariant = { λ r. IsRequest r.fields × IfSome r.names (AreNames r.fields) };
}

// Requests that say the same are one, whether names are kept or not.
impl PartialEq for Request {
    ghost use Rattle.vr_msg.specs.contracts.request.RequestFieldsPartialEq.TheImpl.Laws.{laws-law};

    ghost eq = { λ x y. ⟦<RequestFields as PartialEq>⟧.eq x y };

    ghost laws = { laws-law };

    fn eq(&self, other: &Self) -> bool {
        self.fields == other.fields
    }
}

impl Eq for Request {
    ghost use Rattle.vr_msg.specs.contracts.request.RequestFieldsEq.TheImpl.Laws.{laws-law};

    ghost laws = { laws-law };
}

impl Request {
    /// The request that says this.
    pub fn new(fields: RequestFields) -> Request
        requires { IsRequest fields }
        ensures { result ≡ fields }
    {
        Request {
            fields,
            names: None,
        }
    }

    /// The request that says this, with its names, which are known.
    pub fn named(fields: RequestFields, names: Names) -> Request
        requires form { IsRequest fields }
        requires names { AreNames fields names }
        ensures { result ≡ fields }
    {
        Request {
            fields,
            names: Some(names),
        }
    }

    /// Its header, and the header's name.
    pub fn header(&self) -> (Header, Sum)
        ensures header { result.0 ≡ request_header self.now.version self.now.cluster self.now.client self.now.request self.now.operation }
        ensures name { result.1 ≡ header_name result.0 }
    {
        match self.names {
            Some(names) => (self.header_over(names.body), names.header),
            None => {
                let header = self.header_over(self.fields.operation.body_name());
                (header, header.name())
            }
        }
    }

    // Its header, whose operation has this name.
    fn header_over(&self, body: Sum) -> Header
        requires { body.0 ≡ name_of (operation_bytes self.now.operation) }
        ensures { result ≡ request_header self.now.version self.now.cluster self.now.client self.now.request self.now.operation }
    {
        let q = &self.fields;
        let size = q.operation.size();
        Header::of_named(q.version, q.cluster, q.client, q.request, size, body)
    }

    /// What it says.
    pub fn fields(&self) -> &RequestFields
        ensures value { result.now ≡ self.now }
        ensures form { IsRequest self.now }
    {
        &self.fields
    }

    /// A request that says the same, with its names.
    pub(crate) fn same(&self, fields: RequestFields) -> Request
        requires { fields ≡ self.now }
        ensures { result ≡ fields }
    {
        Request {
            fields,
            names: self.names,
        }
    }
}
