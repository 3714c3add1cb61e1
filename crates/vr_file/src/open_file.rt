//! A file of the system, as it is read and written.
ghost use Rattle.std.specs.Prelude.{◌≡◌, ◌*◌, None};

use crate::file::renew_copies;
use crate::page_file::PageFile;
use std::fs::File;
use std::os::unix::fs::FileExt;
use std::time::{Clock, Duration};
use std::{io, thread};
use vr_disk::{SECTOR_SIZE, Sector};
use vr_io_policy::millis_of;

/// The place of a sector in the file.
pub fn place(i: u32) -> u64
    ensures { result ≡ 512 * i }
{
    u64::from(i) * SECTOR_SIZE as u64
}

/// A file of the system that is open, and its clock: sector i stands at byte 512 i. It tells nothing.
#[derive(Drop)]
pub struct OpenFile<'f, 'c, R> {
    pub file: &'f File,
    pub clock: &'c R,
}

impl<'f, 'c, R: Clock> PageFile for OpenFile<'f, 'c, R> {
    ghost told = { λ _. None };

    ghost made = { λ _. None };

    fn read(&mut self, i: u32, to: &mut Sector) -> io::Result<()> {
        self.file.read_exact_at(&mut to.bytes, place(i))
    }

    fn write(&mut self, first: u32, bytes: &[u8]) -> io::Result<()> {
        self.file.write_all_at(bytes, place(first))
    }

    fn sync(&mut self) -> io::Result<()> {
        self.file.sync_data()
    }

    fn renew(&mut self) {
        renew_copies(self.file);
    }

    fn pause(&mut self, millis: u64) {
        thread::sleep(self.clock, Duration::from_millis(millis));
    }

    fn millis(&mut self, last: u64) -> u64 {
        millis_of(self.clock.monotonic(), last)
    }
}
