//! What clients ask.
ghost use Rattle.std.specs.Prelude.{◌≡◌, ◌<◌, ◌^◌, IfOk, max};
ghost use Rattle.vr_world.specs.World.{in_version};
ghost use Rattle.vr_msg.specs.declared.event.Event.TheVariants as event;
ghost use Rattle.vr_rules.specs.Fit.{IsAsked};

use std::alloc::{AllocError, Global};
use vr_base::Version;
use vr_msg::{Event, Request, RequestFields};

/// What a request says. It can be asked.
pub fn what_is_asked(request: &Request) -> &RequestFields
    ensures same { result.now ≡ request.now }
    ensures asked { IsAsked request.now }
    ensures cluster { request.now.cluster < 2 ^ 64 }
{
    let fields = request.fields();
    // Each is in the range of its type, since it was read.
    let _version = fields.version.get();
    let _cluster = fields.cluster;
    let _client = fields.client;
    let _request = fields.request;
    fields
}

// The later one of two versions.
fn later(one: Version, other: Version) -> Version
    ensures { result ≡ max one other }
{
    if one.get() < other.get() { other } else { one }
}

/// The event that a request is to a replica on a file of this version: it is made in that version, where it isn't of a later one.
#[tactic(auto, using(crate::proofs::Asks::later_fits))]
pub fn asked(alloc: Global, version: Version, request: &RequestFields) -> Result<Event, AllocError>
    requires { IsAsked request.now }
    ensures { IfOk result (λ e. e ≡ event.Request (in_version version request.now)) }
{
    Ok(Event::Request(Request::new(RequestFields {
        version: later(request.version, version),
        cluster: request.cluster,
        client: request.client,
        request: request.request,
        operation: request.operation.try_clone(alloc)?,
    })))
}
