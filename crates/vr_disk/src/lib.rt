//! A disk of sectors: its calls, what a stop at any of them leaves, and the regions of a data file.
#![tactic(auto)]

mod buffer;
mod disk;
mod fault;
mod laws;
mod memo;
mod none;
mod regions;
mod sector;
mod sectors;

pub use buffer::Buffer;
pub use disk::{DiskFailed, NAME_MOST, SectorDisk};
pub use fault::{DiskFault, Faulty, Halt};
pub use laws::disk_laws;
pub use memo::{Memo, Room};
pub use none::NoDisk;
pub use regions::{
    BLOCK_SECTORS, BLOCKS, COPIES, COPY_SECTORS, COPY_SIZE, SECTORS, SLOTS, block_place,
    copy_place, header_place, prepare_place, prepare_sectors,
};
pub use sector::{FRONT_TEXT, SECTOR_SIZE, Sector, ZEROS, front_sector};
pub use sectors::{
    are_zeros, read_sectors, sector_at, sectors_read_as, write_sectors, write_zeros,
};
