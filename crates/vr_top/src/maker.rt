//! What makes the outside of a run.
ghost use Rattle.std.specs.Prelude.{List, Option};
ghost use Rattle.vr_top.specs.Making.{Gives, Made, Making, TakenBack};
ghost use Rattle.vr_top.specs.declared.maker.Objects.{Objects as AllObjects};

use std::alloc::AllocError;
use vr_disk::SectorDisk;
use vr_edge::{Clock, Link, Sink, Source};
use vr_spawn::Spawner;

/// The objects of an outside, as one value.
#[derive(Drop)]
pub struct Objects<S, K, D, L, C, P> {
    pub source: S,
    pub sink: K,
    pub disk: D,
    pub link: L,
    pub clock: C,
    pub spawner: P,
}

/// Makes the objects of an outside, and takes them back.
pub trait Maker {
    type Source: Source + Drop;

    type Sink: Sink + Drop;

    type Disk: SectorDisk + Drop;

    type Link: Link + Drop;

    type Clock: Clock + Drop;

    type Spawner: Spawner + Drop;

    /// Where a program stands.
    type Path;

    /// What each call so far gave or was given, where the maker tells it.
    ghost made: { Self → Option (List (Making (AllObjects Self.Source Self.Sink Self.Disk Self.Link Self.Clock Self.Spawner) Self.Path)) };

    /// Makes the objects, if there is memory for them. The spawner starts the program at this path, and nothing without one. This call, with the
    /// path and what it gave, is then the last one of `made`, also after an `Err`.
    fn make(
        &mut self,
        path: Option<Self::Path>,
    ) -> Result<
        Objects<Self::Source, Self::Sink, Self::Disk, Self::Link, Self::Clock, Self::Spawner>,
        AllocError,
    >
        ensures { Gives made self.old self.new (Made path result) };

    /// Takes back what it made, as the run left it. This call, with that, is then the last one of `made`.
    fn take_back(
        &mut self,
        objects: Objects<
            Self::Source,
            Self::Sink,
            Self::Disk,
            Self::Link,
            Self::Clock,
            Self::Spawner,
        >,
    )
        ensures { Gives made self.old self.new (TakenBack objects) };
}
