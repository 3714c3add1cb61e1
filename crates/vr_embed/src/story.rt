//! What happens to the group.
ghost use Rattle.std.specs.Prelude.{◌≡◌, ◌∷◌, [], false, true, IfOk, IsTrue, OnOk};
ghost use Rattle.vr_header.specs.Text.{is_text};
ghost use Rattle.vr_header.specs.Bodies.{IsOperation};
ghost use Rattle.vr_header.specs.declared.operation.Operation.TheVariants.{Get, Put, Register};
ghost use Rattle.vr_world.specs.World.{Asks, Fuses, Starts};
ghost use Rattle.vr_msg.specs.Asking.{IsRequest};
ghost use Rattle.vr_embed.specs.Groups.{GoesOn, GoesOnBehind, ticks};
ghost use Rattle.vr_embed.specs.Story.{IsTold, asked, asks, color, green, is_due, passed, round, shape};

use crate::clock::Clock;
use crate::group::Group;
use crate::member::GROUP;
use std::alloc::{AllocError, Global};
use vr_replica::{ByteList, Key, NoMemory, Operation, Request, RequestFields, Value, Version};

/// Who asks.
const CLIENT: u64 = 1;

/// More letters than any part of the story sends.
const MOST: u32 = 1000;

fn request(request: u32, operation: Operation) -> Request
    requires { IsRequest (asked request operation) }
    ensures { result ≡ asked request operation }
{
    Request::new(RequestFields {
        version: Version::new(2),
        cluster: GROUP,
        client: CLIENT,
        request,
        operation,
    })
}

fn put(alloc: Global, key: &[u8], value: &[u8]) -> Result<Operation, AllocError>
    requires key { IsTrue (is_text 64 key.now) }
    requires value { IsTrue (is_text 3000 value.now) }
    ensures { IfOk result (λ operation. operation ≡ Put key.now value.now) }
{
    Ok(Operation::Put(
        Key::from_bytes(alloc, key)?,
        Value::from_bytes(alloc, value)?,
    ))
}

// The first member is asked this, and all letters are delivered.
fn ask(alloc: Global, group: &mut Group, request: Request) -> Result<(), NoMemory>
    ensures { OnOk result (GoesOn (Asks 0 request ∷ []) group.old.link.next group.old group.new) }
{
    group.ask(alloc, 0, request)?;
    group.deliver(alloc, MOST)
}

// The first member is asked this, the first letter is lost, and all others are delivered.
fn ask_and_lose(alloc: Global, group: &mut Group, request: Request) -> Result<(), NoMemory>
    ensures { OnOk result (GoesOnBehind (Asks 0 request ∷ []) group.old group.new) }
{
    group.ask(alloc, 0, request)?;
    group.lose();
    group.deliver(alloc, MOST)
}

// In the midst of it the power of the second member fails.
fn ask_and_cut(alloc: Global, group: &mut Group, request: Request) -> Result<(), NoMemory>
    ensures { OnOk result (GoesOn (Fuses 1 2 0 ∷ Asks 0 request ∷ []) group.old.link.next group.old group.new) }
{
    group.cut_after(1, 2);
    ask(alloc, group, request)
}

// The second member is found again.
fn find(alloc: Global, group: &mut Group) -> Result<(), NoMemory>
    ensures { OnOk result (GoesOn (Starts 1 ∷ []) group.old.link.next group.old group.new) }
{
    group.recover(alloc, 1)?;
    group.deliver(alloc, MOST)
}

// Time goes by at all members.
fn tick(alloc: Global, group: &mut Group) -> Result<(), NoMemory>
    ensures { OnOk result (GoesOn ticks group.old.link.next group.old group.new) }
{
    group.tick(alloc)?;
    group.deliver(alloc, MOST)
}

// Milliseconds go by, and members tick where that is due.
fn wait(
    alloc: Global,
    group: &mut Group,
    clock: &mut Clock,
    milliseconds: u64,
) -> Result<(), NoMemory>
    ensures clock { clock.new ≡ passed clock.old milliseconds }
    ensures quiet { is_due clock.old milliseconds ≡ false → group.new ≡ group.old }
    ensures due { OnOk result (is_due clock.old milliseconds ≡ true → GoesOn ticks group.old.link.next group.old group.new) }
{
    if clock.pass(milliseconds) {
        return tick(alloc, group);
    }
    Ok(())
}

// A session.
#[tactic(auto, using(crate::proofs::Stories::register_is))]
fn open_session(alloc: Global, group: &mut Group) -> Result<(), NoMemory>
    ensures { OnOk result (GoesOn (asks 0 Register ∷ []) group.old.link.next group.old group.new) }
{
    ask(alloc, group, request(0, Operation::Register))
}

// A put, of which a letter is lost.
#[tactic(auto, using(crate::proofs::Stories::color_text, crate::proofs::Stories::green_text, crate::proofs::Stories::color_asked))]
fn put_color(alloc: Global, group: &mut Group) -> Result<(), NoMemory>
    ensures { OnOk result (GoesOnBehind (asks 1 (Put color green) ∷ []) group.old group.new) }
{
    let operation = put(alloc, b"color", b"green")?;
    ask_and_lose(alloc, group, request(1, operation))
}

// A put, in the midst of which the power of the second member fails.
#[tactic(auto, using(crate::proofs::Stories::shape_text, crate::proofs::Stories::round_text, crate::proofs::Stories::shape_asked))]
fn put_shape(alloc: Global, group: &mut Group) -> Result<(), NoMemory>
    ensures { OnOk result (GoesOn (Fuses 1 2 0 ∷ asks 2 (Put shape round) ∷ []) group.old.link.next group.old group.new) }
{
    let operation = put(alloc, b"shape", b"round")?;
    ask_and_cut(alloc, group, request(2, operation))
}

// What was put is asked for.
#[tactic(auto, using(crate::proofs::Stories::shape_text, crate::proofs::Stories::key_asked))]
fn get_shape(alloc: Global, group: &mut Group) -> Result<(), NoMemory>
    ensures { OnOk result (GoesOn (asks 3 (Get shape) ∷ []) group.old.link.next group.old group.new) }
{
    let key = Key::from_bytes(alloc, b"shape")?;
    ask(alloc, group, request(3, Operation::Get(key)))
}

/// Three members are made. A client asks for a session, a put, of which a letter is lost, and a second put, in the midst of which
/// a member's power fails; then that member is found again, and the client asks for what it has put. It returns the lines of it all.
pub fn tell(alloc: Global) -> Result<ByteList, NoMemory>
    ensures headline { IfOk result IsTold }
{
    let mut group = Group::new(alloc)?;
    let mut clock = Clock { time: 0, ticked: 0 };
    open_session(alloc, &mut group)?;
    put_color(alloc, &mut group)?;
    wait(alloc, &mut group, &mut clock, 60)?;
    wait(alloc, &mut group, &mut clock, 60)?;
    put_shape(alloc, &mut group)?;
    find(alloc, &mut group)?;
    wait(alloc, &mut group, &mut clock, 100)?;
    get_shape(alloc, &mut group)?;
    wait(alloc, &mut group, &mut clock, 100)?;
    Ok(group.into_text())
}
