//! To whom an answer goes.
ghost use Rattle.std.specs.Prelude.{◌≡◌};
ghost use Rattle.vr_io_policy.specs.Receivers.{is_machine, is_peer, receiver_of, same_receiver};

/// To whom an answer goes. Anyone may name any port of a machine as the sender's, so all of its ports are one.
#[derive(Clone, Copy, Debug)]
pub enum Receiver<A> {
    /// The peer of this number.
    Peer(u32),
    /// The machine of this address.
    Machine(A),
}

impl<A: Copy + PartialEq> Receiver<A> {
    /// The receiver of what is sent to a port of this machine, where so many peers have the first ports.
    pub fn of(port: u32, peers: usize, machine: A) -> Receiver<A>
        ensures { result ≡ receiver_of peers port machine }
    {
        if (port as usize) < peers {
            Receiver::Peer(port)
        } else {
            Receiver::Machine(machine)
        }
    }

    // Whether it is the peer of this number.
    fn is_peer(&self, number: u32) -> bool
        ensures { result ≡ is_peer number self.now }
    {
        match self {
            Receiver::Peer(own) => *own == number,
            Receiver::Machine(_) => false,
        }
    }

    // Whether it is the machine of this address.
    fn is_machine(&self, address: &A) -> bool
        ensures { result ≡ is_machine A.eq address.now self.now }
    {
        match self {
            Receiver::Peer(_) => false,
            Receiver::Machine(own) => address == own,
        }
    }

    /// Whether it is the same.
    pub fn is_same(&self, other: &Receiver<A>) -> bool
        ensures { result ≡ same_receiver A.eq self.now other.now }
    {
        match self {
            Receiver::Peer(number) => other.is_peer(*number),
            Receiver::Machine(address) => other.is_machine(address),
        }
    }
}
