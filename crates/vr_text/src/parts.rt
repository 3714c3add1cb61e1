//! The letters of Parts.
ghost use Rattle.std.specs.Prelude.{◌≡◌, ◌++◌, OnOk, map};
ghost use Rattle.vr_text.specs.Fronts.{IsFront};
ghost use Rattle.vr_text.specs.Text.{letter, letters_of, parts_text};

use crate::texts::{put, put_bytes};
use std::alloc::AllocError;
use vr_base::ByteList;
use vr_header::Part;

fn letter(part: &Part) -> u8
    ensures { result ≡ letter part.now }
{
    match part {
        Part::Here(_) => b'h',
        Part::Lost(_) => b'l',
        Part::Wanted(_) => b'w',
        Part::Unknown => b'u',
        Part::Nothing => b'n',
    }
}

/// The Parts up to the last that isn't `Nothing`.
#[tactic(auto, using(std::proofs::lemmas::Grind::common_steps, crate::proofs::Letters::known_end, crate::proofs::Letters::nothing_end, crate::proofs::Letters::no_letters))]
fn known(parts: &[Part]) -> &[Part]
    ensures { map letter result.now ≡ letters_of parts.now }
{
    let mut count = parts.len();
    while count > 0 {
        if parts[count - 1] != Part::Nothing {
            return &parts[..count];
        }
        count -= 1;
    }
    &[]
}

#[tactic(auto, using(std::proofs::lemmas::Grind::common_steps, crate::proofs::Fronts::front_same, crate::proofs::Fronts::front_then))]
fn put_letters(to: &mut ByteList, parts: &[Part]) -> Result<(), AllocError>
    ensures text { OnOk result (to.new ≡ to.old ++ map letter parts.now) }
    ensures front { IsFront to.old to.new }
{
    for part in parts {
        put_bytes(to, &[letter(part)])?;
    }
    Ok(())
}

/// A letter for each Part up to the last that isn't `Nothing`, `-` where there is none.
#[tactic(auto, using(std::proofs::lemmas::Grind::common_steps, crate::proofs::Fronts::front_then))]
pub fn put_parts(to: &mut ByteList, parts: &[Part]) -> Result<(), AllocError>
    ensures text { OnOk result (to.new ≡ to.old ++ parts_text parts.now) }
    ensures front { IsFront to.old to.new }
{
    let known = known(parts);
    if known.is_empty() {
        return put(to, "-");
    }
    put_letters(to, known)
}
