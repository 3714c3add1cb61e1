//! A datagram.
use vr_base::ByteList;

/// One datagram, on its way to a port or from it.
#[derive(Drop, PartialEq, Eq)]
pub struct Datagram {
    pub port: u32,
    pub bytes: ByteList,
}
