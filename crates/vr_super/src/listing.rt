//! The headers of a good copy.
ghost use Rattle.std.specs.Prelude.{◌≡◌, ◌≤◌, ◌<◌, ◌*◌, ℕ, List, IfOk, None, Some, drop, length};
ghost use Rattle.vr_header.specs.Spelling.{fault_of};
ghost use Rattle.vr_header.specs.declared.header.Header.{Header};
ghost use Rattle.vr_super.specs.Copies.{list_at};
ghost use Rattle.vr_super.specs.declared.fields.Fields.{Fields};

use std::alloc::Global;
use vr_base::{NoMemory, Seq};
use vr_header::{HEADER_SIZE, HeaderList, decoded_header};

/// So many headers, one after the other, of a copy that has them.
pub fn read_list(alloc: Global, bytes: &[u8], count: usize) -> Result<HeaderList, NoMemory>
    requires size { 128 * count ≤ length bytes.now }
    requires spelled { (i : ℕ) → i < count → fault_of (drop (128 * i) bytes.now) ≡ None }
    ensures { IfOk result (λ hs. (f : Fields) (op : ℕ) (all : List Header) → list_at f op count bytes.now ≡ Some all → hs ≡ all) }
{
    let mut headers = Seq::new(alloc);
    for i in 0..count {
        let (_, rest) = bytes.split_at(HEADER_SIZE * i);
        headers.push(decoded_header(rest))?;
    }
    Ok(headers)
}
