//! The file of a disk: opened, locked, made whole, and read anew by the system.

use crate::open_file::place;
use std::fs::{File, Files, OpenOptions};
use std::io;
use std::io::ErrorKind;
use std::os::fd::AsRawFd;
use std::os::unix::fs::{FileExt, OpenOptionsExt};
use std::path::Path;
use vr_disk::{SECTOR_SIZE, SECTORS};
use vr_io_policy::{FILE_SIZE, Length, length_of, sectors_begun};

/// Who may do what with a file that is made here: its owner may read and write it.
const OWNER_ONLY: u32 = 0o600;

/// How many bytes the system is asked at once to read: what it usually reads ahead, so that it doesn't cut them short.
const PIECE: i64 = 131_072;

/// As many pieces as the file has, the last one not whole.
const PIECES: i64 = (FILE_SIZE as i64 + PIECE - 1) / PIECE;

/// Writes zeros to each sector of which a file of this length has nothing, so that no later write has to find room for it.
fn fill(file: &File, len: u64) -> io::Result<()> {
    let zeros = [0u8; SECTOR_SIZE];
    for i in sectors_begun(len)..SECTORS {
        file.write_all_at(&zeros, place(i))?;
    }
    Ok(())
}

/// Syncs the folder of a file, so that the name of a file that was just made stays.
fn sync_folder<R: Files<File = File>>(files: &R, name: &str) -> io::Result<()> {
    let folder = match Path::new(name).parent() {
        Some(parent) if !parent.as_str().is_empty() => parent.as_str(),
        _ => ".",
    };
    File::open(files, folder)?.sync_all()
}

/// Tells the system to forget its copies of the file's bytes, and to read them anew from the disk. What isn't synced yet it
/// keeps. The second advice has it read many pages at once, in place of one at a time as they are asked for.
pub fn renew_copies(file: &File) {
    let fd = file.as_raw_fd();
    let _ = libc::posix_fadvise(fd, 0, 0, libc::POSIX_FADV_DONTNEED);
    for piece in 0..PIECES {
        let _ = libc::posix_fadvise(
            fd,
            piece.saturating_mul(PIECE),
            PIECE,
            libc::POSIX_FADV_WILLNEED,
        );
    }
}

/// The file with this name, opened and locked. One that isn't there is made, for its owner alone. It fails, and leaves what has that name as it is, where
/// that is no plain file, as a folder, a pipe or a device, and while another open of the file has the lock: each open file has one of its own, which
/// ends with it.
fn open_locked<R: Files<File = File>>(files: &R, name: &str) -> io::Result<File> {
    let file = OpenOptions::new()
        .read(true)
        .write(true)
        .create(true)
        .mode(OWNER_ONLY)
        .open(files, name)?;
    if !file.metadata()?.is_file() || file.try_lock().is_err() {
        return Err(io::Error::from(ErrorKind::WouldBlock));
    }
    Ok(file)
}

/// Gives a file of this length zeros after what it has, up to the whole length. It gets that length last, so a
/// file of that length has no holes that were made here.
fn lengthen(file: &File, len: u64) -> io::Result<()> {
    fill(file, len)?;
    file.set_len(FILE_SIZE)
}

/// Has the file with this name whole and on its disk, and its folder too where it had to be made or was too short. One that is too long is no disk's: it
/// fails, and leaves that as it is.
fn make_whole<R: Files<File = File>>(files: &R, name: &str, file: &File) -> io::Result<()> {
    let len = file.metadata()?.len();
    match length_of(len) {
        Length::Long => Err(io::Error::from(ErrorKind::InvalidData)),
        Length::Whole => {
            file.sync_all()?;
            // Who made it may have been stopped before it came here.
            let _ = sync_folder(files, name);
            Ok(())
        }
        Length::Short => {
            lengthen(file, len)?;
            file.sync_all()?;
            sync_folder(files, name)
        }
    }
}

/// The file with this name, locked, of the whole length, synced and with its folder synced.
pub fn open<R: Files<File = File>>(files: &R, name: &str) -> io::Result<File> {
    let file = open_locked(files, name)?;
    match make_whole(files, name, &file) {
        Ok(()) => {
            renew_copies(&file);
            Ok(file)
        }
        Err(error) => {
            drop(file);
            Err(error)
        }
    }
}
