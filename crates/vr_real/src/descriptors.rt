//! Descriptors: those of the standard streams, and whether there are enough.
use libc::net::{EPOLL_CLOEXEC, epoll_create1};
use std::alloc::{AllocError, Global};

/// How many descriptors are those of standard streams: the numbers below this one.
const STREAMS: i32 = 3;

/// Takes the descriptor of each standard stream that the program was started without, as long as it runs: else what it opens
/// next would get it, and what is written to that stream would go there. It is taken by an empty set of descriptors, which
/// gives no byte and takes none: each read and write fails, as where nothing is open. Whether that could be done.
pub fn take_missing_streams() -> bool {
    for _ in 0..STREAMS {
        let taken = epoll_create1(EPOLL_CLOEXEC);
        if taken < 0 {
            return false;
        }
        if taken >= STREAMS {
            let _ = libc::close(taken);
            break;
        }
    }
    true
}

/// Whether the system gives so many descriptors more. They are taken, and given back.
pub fn has_descriptors(alloc: Global, count: usize) -> Result<bool, AllocError> {
    let mut taken = Vec::new(alloc);
    for _ in 0..count {
        taken.push(epoll_create1(EPOLL_CLOEXEC))?;
    }
    for descriptor in taken.iter() {
        let _ = libc::close(*descriptor);
    }
    Ok(taken.iter().all(|descriptor| *descriptor >= 0))
}
