//! A replica that knows nothing of any op.
ghost use Rattle.std.specs.Prelude.{◌≡◌, ◌≤◌, ◌+◌, ◌-◌, IfOk, None, replicate};
ghost use Rattle.vr_base.specs.Replicas.{no_replicas};
ghost use Rattle.vr_header.specs.declared.part.Part.TheVariants.{Nothing};
ghost use Rattle.vr_rules.specs.Opening.{blank, first_listed};

use crate::Replica;
use std::alloc::Global;
use vr_base::{NoMemory, Replicas, Seq};
use vr_ckpt::{Name, PayloadTable, State};
use vr_disk::{Buffer, SLOTS};
use vr_header::{Names, Part};
use vr_msg::Statement;
use vr_super::Super;
use vr_window::{Places, Window};

// For how many ops a window has room: the last ones up to the head, and those above the checkpoint.
const WINDOW_ROOM: usize = 128;

// The op of the first header that a value names.
#[tactic(auto, using(crate::proofs::Blanks::value_bounds))]
fn first_of(value: &Super) -> u64
    ensures { result ≡ first_listed value.now }
{
    value.fields().head + 1 - value.headers().len() as u64
}

// How many ops its window reaches over.
#[tactic(auto, using(crate::proofs::Blanks::blank_room))]
fn count_of(value: &Super) -> usize
    ensures count { result ≡ value.now.fields.checkpoint + (SLOTS + 1) - first_listed value.now }
    ensures few { result ≤ WINDOW_ROOM }
{
    let first = first_of(value);
    (value.fields().checkpoint + (SLOTS as u64 + 1) - first) as usize
}

// How many replicas its group has.
fn members_of(value: &Super) -> u8
    ensures { result ≡ value.now.fields.n }
{
    value.fields().n
}

// What a replica has space for from its beginning on.
#[derive(Drop)]
struct Space {
    parts: Window<Part>,
    names: Names,
    ackers: Window<Replicas>,
    statements: Places<Statement>,
    buffer: Buffer,
}

impl Space {
    // Space for so many ops, of which nothing is known, in a group of n. What has fewer kinds to be let go of is taken first.
    fn new(alloc: Global, count: usize, n: u8) -> Result<Space, NoMemory>
        requires { count ≤ WINDOW_ROOM }
        ensures parts { IfOk result (λ space. space.parts ≡ replicate count Nothing) }
        ensures ackers { IfOk result (λ space. space.ackers ≡ replicate count no_replicas) }
        ensures statements { IfOk result (λ space. space.statements ≡ replicate n None) }
    {
        let buffer = Buffer::new(alloc)?;
        let ackers = Window::full(alloc, Replicas::none(), count)?;
        let parts = Window::full(alloc, Part::Nothing, count)?;
        let names = Names::new(alloc)?;
        let statements = Places::new(alloc, n)?;
        Ok(Space {
            parts,
            names,
            ackers,
            statements,
            buffer,
        })
    }
}

impl Replica {
    // The replica of this value in this space; it takes no memory.
    #[tactic(auto, unfolding(vr_rules::specs::Opening::blank))]
    fn within(alloc: Global, value: Super, first: u64, space: Space) -> Replica
        requires first { first ≡ first_listed value }
        requires parts { space.parts ≡ replicate (value.fields.checkpoint + (SLOTS + 1) - first) Nothing }
        requires ackers { space.ackers ≡ replicate (value.fields.checkpoint + (SLOTS + 1) - first) no_replicas }
        requires statements { space.statements ≡ replicate value.fields.n None }
        ensures { result ≡ blank value }
    {
        let f = value.fields();
        let Space {
            parts,
            mut names,
            ackers,
            statements,
            buffer,
        } = space;
        value.tell_names(&mut names);
        Replica {
            cluster: f.cluster,
            index: f.replica,
            n: f.n,
            view: f.view,
            log_view: f.log_view,
            commit: f.commit,
            applied: f.checkpoint,
            checkpoint: f.checkpoint,
            root: Name {
                address: f.root_address,
                sum: f.root_name,
            },
            table: PayloadTable::new(alloc),
            state: State::new(alloc),
            missing: Seq::new(alloc),
            first,
            parts,
            names,
            ackers,
            heard: Replicas::none(),
            statements,
            idle: 0,
            turn: 0,
            cursor: 0,
            worn: Seq::new(alloc),
            saved: value,
            buffer,
        }
    }

    /// The replica of this value that knows nothing of any op.
    pub fn blank(alloc: Global, value: Super) -> Result<Replica, NoMemory>
        ensures blank { IfOk result (λ r. r ≡ blank value) }
    {
        let first = first_of(&value);
        let count = count_of(&value);
        let space = Space::new(alloc, count, members_of(&value))?;
        Ok(Replica::within(alloc, value, first, space))
    }
}
