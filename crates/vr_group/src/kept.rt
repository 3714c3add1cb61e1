//! Messages as they are kept.
ghost use Rattle.std.specs.Prelude.{◌≡◌, IfOk, IfSome, Some, true};
ghost use Rattle.vr_header.specs.Made.{entry_of};
ghost use Rattle.vr_msg.specs.declared.event.Event.TheVariants as event;
ghost use Rattle.vr_msg.specs.declared.frame.Frame.TheVariants as frame;
ghost use Rattle.vr_msg.specs.Forms.{IsFrame, IsPrepare, IsPrepareOk};
ghost use Rattle.vr_group.specs.Letters.{IsKept, delivered_as, frame_in};

use crate::Letter;
use crate::same::says_same;
use std::alloc::{AllocError, Global};
use std::rc::Rc;
use vr_base::{ByteList, Sum, Version};
use vr_header::Entry;
use vr_msg::{
    Commit, Event, Frame, GetSync, GetView, Message, Prepare, PrepareOk, StartViewChange,
};

/// A message as it is kept for ever. Of kinds that are sent often it is what makes one up, in little room; an entry is kept as its bytes.
#[derive(Drop)]
pub enum Kept {
    Prepare {
        version: Version,
        replica: u8,
        view: u32,
        commit: u64,
        /// The bytes of the entry.
        entry: ByteList,
    },
    PrepareOk {
        version: Version,
        replica: u8,
        view: u32,
        cluster: u64,
        op: u64,
        name: Sum,
        made: u32,
    },
    Commit(Commit),
    StartViewChange(StartViewChange),
    GetView(GetView),
    GetSync(GetSync),
    /// Any other, as the event of its delivery. Letters that say the same may share one.
    Other(Rc<Event>),
}

/// The delivery of a message that is kept.
#[derive(Drop)]
pub enum Delivery<'a> {
    /// It is kept as such.
    Kept(&'a Event),
    /// It was made of what is kept.
    Made(Event),
}

impl Delivery<'_> {
    /// The event.
    pub fn event(&self) -> &Event
        ensures { result.now ≡ delivered_as self.now }
    {
        match self {
            Delivery::Kept(event) => event,
            Delivery::Made(event) => event,
        }
    }
}

// The bytes of an entry.
fn entry_bytes(alloc: Global, entry: &Entry) -> Result<ByteList, AllocError>
    ensures { IfOk result (λ bytes. entry_of bytes ≡ Some entry.now) }
{
    let size = entry.header().size.get() as usize;
    let mut bytes = Vec::with_capacity(alloc, size)?;
    entry.write(&mut bytes)?;
    Ok(ByteList::from_vec(bytes))
}

fn keep_prepare(alloc: Global, prepare: &Prepare) -> Result<Kept, AllocError>
    requires { IsPrepare prepare.now }
    ensures frame { IfOk result (λ k. frame_in k ≡ frame.Prepare prepare.now) }
    ensures kept { IfOk result IsKept }
{
    Ok(Kept::Prepare {
        version: prepare.version,
        replica: prepare.replica,
        view: prepare.view,
        commit: prepare.commit,
        entry: entry_bytes(alloc, &prepare.entry)?,
    })
}

fn keep_prepare_ok(ok: &PrepareOk) -> Kept
    requires { IsPrepareOk ok.now }
    ensures frame { frame_in result ≡ frame.PrepareOk ok.now }
    ensures kept { IsKept result }
{
    Kept::PrepareOk {
        version: ok.version,
        replica: ok.replica,
        view: ok.view,
        cluster: ok.cluster,
        op: ok.op,
        name: ok.name,
        made: ok.made,
    }
}

// How many of the last letters are looked at for one that says the same: what is told to each of the others, and what a member
// tells again since it wasn't heard.
const LOOKED_AT: usize = 64;

// Whether an event is the delivery of this.
fn delivers(told: &Event, frame: &Frame) -> bool
    ensures { result ≡ true → told.now ≡ event.Deliver frame.now }
{
    match told {
        Event::Deliver(message) => says_same(message.frame(), frame),
        _ => false,
    }
}

// The event of a letter's delivery, shared with it, where it is kept as such and delivers this.
fn share(letter: &Letter, frame: &Frame) -> Result<Option<Rc<Event>>, AllocError>
    ensures { IfOk result (λ found. IfSome found (λ kept. kept.value ≡ event.Deliver frame.now)) }
{
    match letter.kept() {
        Kept::Other(kept) if delivers(kept, frame) => Ok(Some(kept.clone()?)),
        _ => Ok(None),
    }
}

// The event that one of the last letters shares so, the latest first.
fn share_last(letters: &[Letter], frame: &Frame) -> Result<Option<Rc<Event>>, AllocError>
    ensures { IfOk result (λ found. IfSome found (λ kept. kept.value ≡ event.Deliver frame.now)) }
{
    for letter in letters.iter().rev().take(LOOKED_AT) {
        if let Some(kept) = share(letter, frame)? {
            return Ok(Some(kept));
        }
    }
    Ok(None)
}

// A statement or the log of a view: they are long, and told to many, or again.
fn keep_long(alloc: Global, letters: &[Letter], message: &Message) -> Result<Kept, AllocError>
    ensures frame { IfOk result (λ k. frame_in k ≡ message.now) }
    ensures kept { IfOk result IsKept }
{
    match share_last(letters, message.frame())? {
        Some(kept) => Ok(Kept::Other(kept)),
        None => keep_other(alloc, message),
    }
}

fn keep_other(alloc: Global, message: &Message) -> Result<Kept, AllocError>
    ensures frame { IfOk result (λ k. frame_in k ≡ message.now) }
    ensures kept { IfOk result IsKept }
{
    let event = Event::Deliver(message.try_clone(alloc)?);
    Ok(Kept::Other(Rc::new(alloc, event)?))
}

fn made<'a>(frame: Frame) -> Delivery<'a>
    requires { IsFrame frame }
    ensures { delivered_as result ≡ event.Deliver frame }
{
    Delivery::Made(Event::Deliver(Message::new(frame)))
}

impl Kept {
    /// A message, as it is kept after these letters.
    pub fn of(alloc: Global, letters: &[Letter], message: &Message) -> Result<Kept, AllocError>
        ensures frame { IfOk result (λ k. frame_in k ≡ message.now) }
        ensures kept { IfOk result IsKept }
    {
        match message.frame() {
            Frame::Prepare(prepare) => keep_prepare(alloc, prepare),
            Frame::PrepareOk(ok) => Ok(keep_prepare_ok(ok)),
            Frame::Commit(commit) => Ok(Kept::Commit(*commit)),
            Frame::StartViewChange(start) => Ok(Kept::StartViewChange(*start)),
            Frame::GetView(get) => Ok(Kept::GetView(*get)),
            Frame::GetSync(get) => Ok(Kept::GetSync(*get)),
            Frame::DoViewChange(_) | Frame::StartView(_) => keep_long(alloc, letters, message),
            _ => keep_other(alloc, message),
        }
    }

    /// Its delivery.
    pub fn delivery(&self, alloc: Global) -> Result<Delivery<'_>, AllocError>
        requires { IsKept self.now }
        ensures { IfOk result (λ d. delivered_as d ≡ event.Deliver (frame_in self.now)) }
    {
        match self {
            Kept::Prepare {
                version,
                replica,
                view,
                commit,
                entry,
            } => {
                let prepare = Prepare {
                    version: *version,
                    replica: *replica,
                    view: *view,
                    commit: *commit,
                    entry: Entry::from_bytes(alloc, entry.as_slice())?,
                };
                Ok(made(Frame::Prepare(prepare)))
            }
            Kept::PrepareOk {
                version,
                replica,
                view,
                cluster,
                op,
                name,
                made: made_view,
            } => Ok(made(Frame::PrepareOk(PrepareOk {
                version: *version,
                cluster: *cluster,
                replica: *replica,
                view: *view,
                op: *op,
                name: *name,
                made: *made_view,
            }))),
            Kept::Commit(commit) => Ok(made(Frame::Commit(*commit))),
            Kept::StartViewChange(start) => Ok(made(Frame::StartViewChange(*start))),
            Kept::GetView(get) => Ok(made(Frame::GetView(*get))),
            Kept::GetSync(get) => Ok(made(Frame::GetSync(*get))),
            Kept::Other(event) => Ok(Delivery::Kept(event)),
        }
    }
}
