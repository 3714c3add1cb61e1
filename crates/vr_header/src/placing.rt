//! Spellings put into room that is there already.
ghost use Rattle.std.specs.Prelude.{◌≡◌, ◌≤◌, ◌+◌, ◌++◌, length, take, drop};
ghost use Rattle.vr_header.specs.Bodies.{IsOperation, operation_bytes};
ghost use Rattle.vr_header.specs.Made.{IsEntry, entry_bytes};
ghost use Rattle.vr_header.specs.Spelling.{IsHeader};

use crate::codec::spelled;
use crate::{Entry, HEADER_SIZE, Operation};
use vr_base::put;

impl Operation {
    /// Puts the spelling, of at most 3,068 bytes, from a place on; the other bytes stay. It takes no memory.
    #[tactic(auto, using(std::proofs::lemmas::Grind::common_steps), unfolding(crate::specs::Bodies::operation_bytes, vr_base::specs::Bytes::bytes16))]
    pub fn put_body(&self, out: &mut [u8], at: usize)
        requires { at + length (operation_bytes self.now) ≤ length out.old }
        ensures front { take (at + length (operation_bytes self.now)) out.new ≡ take at out.old ++ operation_bytes self.now }
        ensures back { drop (at + length (operation_bytes self.now)) out.new ≡ drop (at + length (operation_bytes self.now)) out.old }
        ensures form { IsOperation 2 self.now }
    {
        match self {
            Operation::Register => put(out, at, &[1]),
            Operation::Put(key, value) => {
                let [high, low] = (value.as_slice().len() as u16).to_be_bytes();
                let size = key.as_slice().len();
                put(out, at, &[2, size as u8, high, low]);
                put(out, at + 4, key.as_slice());
                put(out, at + 4 + size, value.as_slice());
            }
            Operation::Get(key) => {
                put(out, at, &[3, key.as_slice().len() as u8]);
                put(out, at + 2, key.as_slice());
            }
            Operation::Delete(key) => {
                put(out, at, &[4, key.as_slice().len() as u8]);
                put(out, at + 2, key.as_slice());
            }
        }
    }
}

impl Entry {
    /// Puts the spelling in front, where there is room for it; the other bytes stay. It takes no memory.
    pub fn put(&self, out: &mut [u8])
        requires { self.now.header.size ≤ length out.old }
        ensures front { take (length (entry_bytes self.now)) out.new ≡ entry_bytes self.now }
        ensures back { drop (length (entry_bytes self.now)) out.new ≡ drop (length (entry_bytes self.now)) out.old }
        ensures size { length (entry_bytes self.now) ≤ length out.old }
        ensures entry { IsEntry self.now }
        ensures header { IsHeader self.now.header }
    {
        put(out, 0, &spelled(&self.header(), self.name()));
        self.operation().put_body(out, HEADER_SIZE);
    }
}
