//! The calls on a file of sectors.
ghost use Rattle.std.specs.Prelude.{List, ◌≡◌, ◌<◌, Option, Some, None, [], ◌∷◌, if◌then◌else◌, is_ok};
ghost use Rattle.vr_disk.specs.Regions.{sectors};
ghost use Rattle.vr_file.specs.Calls.{Asked, IsWithin, Made, Makes, Paused, ReadsSpot, Renewed, Spots, Synced, SyncsSpots, Told, WritesSpots, Wrote};

use std::io;
use vr_disk::Sector;

/// A file of sectors, and the clock beside it. Each call stands within the file.
pub trait PageFile {
    /// What each sector reads as, and what a stop may leave of it, where the file tells.
    ghost told: { Self → Option Spots };

    /// The calls that were made, where the file tells them.
    ghost made: { Self → Option (List Made) };

    /// Reads a sector. After an `Err` the contents of `to` are open.
    fn read(&mut self, i: u32, to: &mut Sector) -> io::Result<()>
        requires { i < sectors }
        ensures told { told self.new ≡ told self.old }
        ensures bytes { ReadsSpot i (told self.old) (if is_ok result then Some to.new.bytes else None) }
        ensures made { Makes (Asked i (is_ok result) ∷ []) (made self.old) (made self.new) };

    /// Writes sectors, from one on. One that fails may have written some of them.
    fn write(&mut self, first: u32, bytes: &[u8]) -> io::Result<()>
        requires { IsWithin first bytes.now }
        ensures written { WritesSpots first bytes.now (is_ok result) (told self.old) (told self.new) }
        ensures made { Makes (Wrote first bytes.now (is_ok result) ∷ []) (made self.old) (made self.new) };

    /// Makes what was written stay.
    fn sync(&mut self) -> io::Result<()>
        ensures synced { SyncsSpots (is_ok result) (told self.old) (told self.new) }
        ensures made { Makes (Synced (is_ok result) ∷ []) (made self.old) (made self.new) };

    /// Has what isn't written any more be read anew.
    fn renew(&mut self)
        ensures told { told self.new ≡ told self.old }
        ensures made { Makes (Renewed ∷ []) (made self.old) (made self.new) };

    /// Waits for so many milliseconds.
    fn pause(&mut self, millis: u64)
        ensures told { told self.new ≡ told self.old }
        ensures made { Makes (Paused millis ∷ []) (made self.old) (made self.new) };

    /// The milliseconds of the clock; the last ones where it fails.
    fn millis(&mut self, last: u64) -> u64
        ensures told { told self.new ≡ told self.old }
        ensures made { Makes (Told result ∷ []) (made self.old) (made self.new) };
}
