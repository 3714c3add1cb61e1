//! What the system is to do by itself with a stream. The one unsafe call of the crate stands here.
ghost use Rattle.libc.specs.Net.{SockOption};

use libc::net as c;
use mio::net::TcpStream;
use std::os::fd::{AsRawFd, RawFd};

/// How long bytes may stay without being acknowledged, until the system ends their stream.
const UNHEARD_MILLIS: i32 = 2000;

/// After how many seconds of silence the system asks whether the other side is there.
const SILENT_SECONDS: i32 = 20;

/// After how many seconds it asks again.
const AGAIN_SECONDS: i32 = 5;

/// Gives an option of a socket this number. One that can't be set stays as it is.
fn set(fd: RawFd, level: i32, name: i32, number: i32)
    requires { SockOption level name }
{
    let mut value = [0u8; 16];
    value[..4].copy_from_slice(&number.to_ne_bytes());
    // Sound: the system reads the first 4 of these 16 bytes while the call lasts, and keeps no pointer; options of this kind
    // hold none, and change how the socket behaves and no memory of the program.
    let _ = unsafe { c::setsockopt(fd, level, name, &value, 4) };
}

/// Has the system end this stream where its bytes aren't acknowledged for two seconds, or where the machine of the other side
/// is gone. A stream for which that can't be set works all the same.
pub fn watch(stream: &TcpStream) {
    let fd = stream.as_raw_fd();
    set(fd, c::IPPROTO_TCP, c::TCP_USER_TIMEOUT, UNHEARD_MILLIS);
    set(fd, c::IPPROTO_TCP, c::TCP_KEEPIDLE, SILENT_SECONDS);
    set(fd, c::IPPROTO_TCP, c::TCP_KEEPINTVL, AGAIN_SECONDS);
    set(fd, c::SOL_SOCKET, c::SO_KEEPALIVE, 1);
}
