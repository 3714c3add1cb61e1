//! Sets of replicas.
ghost use Rattle.std.specs.Prelude.{◌≡◌};
ghost use Rattle.vr_base.specs.Replicas.{no_replicas, with_replica, has_replica, size};

/// A set of replicas of a group, by their numbers from 0 to 5.
#[derive(Clone, Copy, Debug, PartialEq, Eq)]
pub struct Replicas(pub [bool; 6]);

impl Replicas {
    /// The empty set.
    pub fn none() -> Replicas
        ensures { result ≡ no_replicas }
    {
        Replicas([false; 6])
    }

    /// The set with this replica too; a number from 6 on changes nothing.
    pub fn with(mut self, replica: u8) -> Replicas
        ensures { result ≡ with_replica self replica }
    {
        if replica < 6 {
            self.0[usize::from(replica)] = true;
        }
        self
    }

    /// Whether it has this replica.
    pub fn has(self, replica: u8) -> bool
        ensures { result ≡ has_replica self replica }
    {
        self.0.get(usize::from(replica)).copied().unwrap_or(false)
    }

    /// How many it has.
    pub fn size(self) -> usize
        ensures { result ≡ size self }
    {
        self.0.iter().filter(|flag| **flag).count()
    }
}
