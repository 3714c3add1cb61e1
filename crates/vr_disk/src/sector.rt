//! A sector's bytes.
ghost use Rattle.std.specs.Prelude.{◌≡◌, ◌≤◌, ◌++◌, length, take};
ghost use Rattle.vr_base.specs.Bytes.{name_of};
ghost use Rattle.vr_disk.specs.Fronts.{front};

use vr_base::Sum;

/// The number of bytes in a sector.
pub const SECTOR_SIZE: usize = 512;

/// A sector of 512 bytes.
#[derive(Clone, Copy, Debug, PartialEq, Eq)]
pub struct Sector {
    pub bytes: [u8; 512],
}

/// A sector of zeros.
pub const ZEROS: Sector = Sector { bytes: [0; 512] };

/// How many bytes of a text stand after its name in the sector that begins with this.
pub const FRONT_TEXT: usize = 496;

// A name has 16 bytes.
const _: () = prove!(16 + FRONT_TEXT == SECTOR_SIZE);

fn put_front(out: &mut [u8], name: Sum, text: &[u8])
    requires size { length out.old ≡ 512 }
    requires text { 496 ≤ length text.now }
    ensures { out.new ≡ name.0 ++ take 496 text.now }
{
    let (to_name, to_text) = out.split_at_mut(16);
    to_name.copy_from_slice(&name.0);
    to_text.copy_from_slice(&text[..FRONT_TEXT]);
}

/// The sector that begins with the name of a text, and the text after it as far as it fits.
#[tactic(auto, unfolding(crate::specs::Fronts::front))]
pub fn front_sector(name: Sum, text: &[u8]) -> Sector
    requires size { 496 ≤ length text.now }
    requires name { name.0 ≡ name_of text.now }
    ensures { result.bytes ≡ front text.now }
{
    let mut sector = ZEROS;
    put_front(&mut sector.bytes, name, text);
    sector
}
