//! The stack of the program.
use libc::types::rlimit;
use std::alloc::Global;

/// The bytes of a page, and how many pages a run may come to use.
const PAGE: usize = 4096;

const PAGES: usize = 56;

/// The least limit in bytes: those pages, the 131,072 that the system lets the words and the environment take, and some to spare.
const LEAST: u64 = 393_216;

/// Has the stack grow by so many pages more than one, each in the frame of a call of its own: the system is handed all of it.
#[inline(never)]
fn grow(pages: usize) {
    let mut page = [0u8; PAGE];
    let _ = libc::gethostname(&mut page);
    if pages > 0 {
        grow(pages - 1);
    }
}

/// Has the stack grow to what a run may come to use, and says whether that could be done. Where it can't grow the system ends
/// the program by a signal: so its limit is looked at first, and the heap asked whether there is as much memory.
pub fn take_stack(alloc: Global) -> bool {
    let mut limit = rlimit {
        rlim_cur: 0,
        rlim_max: 0,
    };
    if libc::getrlimit(libc::RLIMIT_STACK, &mut limit) == 0 && limit.rlim_cur < LEAST {
        return false;
    }
    let mut room = Vec::new(alloc);
    if room.resize(PAGES * PAGE, 0).is_err() {
        return false;
    }
    let _ = libc::gethostname(&mut room);
    drop(room);
    grow(PAGES);
    true
}
