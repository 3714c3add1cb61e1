//! A value of the superblock.
ghost use Rattle.std.specs.Prelude.{◌≡◌, ◌≤◌, ◌+◌, ◌-◌, ◌*◌, IfOk, Some, drop, is_some, length, replicate, true};
ghost use Rattle.vr_base.specs.Bytes.{piece};
ghost use Rattle.vr_header.specs.Spelling.{header_bytes};
ghost use Rattle.vr_super.specs.Copies.{IsGood, SuperValue, copy_bytes, copy_of, count_at, named_bytes, value_of};

use crate::Fields;
use crate::bytes::spell;
use crate::check::{count_at, fields_at};
use crate::listing::read_list;
use crate::places::{LIST_AT, TEXT_LIST_AT, TEXT_SIZE};
use std::alloc::Global;
use std::marker::Model;
use vr_base::{NoMemory, sum_at};
use vr_disk::COPY_SIZE;
use vr_header::{HEADER_SIZE, Header, HeaderList, NAMED_AT, Names, spelled};

/// What a member keeps in its superblock: numbers, and the headers of the last ops up to the head. It makes a good copy.
#[derive(Drop)]
pub struct Super {
    fields: Fields,
    headers: HeaderList,
    // What a copy has after its name.
    text: Vec<u8>,
}

impl Model for Super {
    ghost use Rattle.vr_super.specs.Copies.{SuperValue};
    ghost use Rattle.vr_super.specs.Laws.{IsSpelled};

    ghost Value = { SuperValue };

    ghost view = { λ s. record { fields = s.fields; headers = s.headers } };

    ghost invariant = { λ s. IsSpelled (record { fields = s.fields; headers = s.headers }) s.text.items };
}

// How many headers a good copy has.
fn few_at(bytes: &[u8]) -> usize
    requires size { length bytes.now ≡ COPY_SIZE }
    requires good { is_some (value_of bytes.now) ≡ true }
    ensures count { result ≡ count_at bytes.now }
    ensures few { result ≤ 64 }
{
    count_at(bytes) as usize
}

// The 128 bytes from a place on.
#[tactic(auto, unfolding(vr_base::specs::Bytes::piece))]
fn header_bytes(bytes: &[u8], at: usize) -> [u8; HEADER_SIZE]
    requires { at + 128 ≤ length bytes.now }
    ensures { result ≡ piece at 128 bytes.now }
{
    let mut copied = [0; HEADER_SIZE];
    copied.copy_from_slice(&bytes[at..at + HEADER_SIZE]);
    copied
}

impl Super {
    /// The value of these numbers and headers.
    pub fn new(alloc: Global, fields: Fields, headers: HeaderList) -> Result<Super, NoMemory>
        requires { IsGood (record { fields = fields; headers = headers }) }
        ensures { IfOk result (λ s. s ≡ record { fields = fields; headers = headers }) }
    {
        Super::made(alloc, fields, headers, None)
    }

    /// The value of these numbers and headers, as `new` makes it. Headers that this value has too, and those whose names are kept, aren't hashed
    /// again.
    pub fn next(
        &self,
        alloc: Global,
        fields: Fields,
        headers: HeaderList,
        names: &Names,
    ) -> Result<Super, NoMemory>
        requires { IsGood (record { fields = fields; headers = headers }) }
        ensures { IfOk result (λ s. s ≡ record { fields = fields; headers = headers }) }
    {
        Super::made(alloc, fields, headers, Some((self, names)))
    }

    // The value of these, where an old value may have some of the headers.
    fn made(
        alloc: Global,
        fields: Fields,
        headers: HeaderList,
        old: Option<(&Super, &Names)>,
    ) -> Result<Super, NoMemory>
        requires { IsGood (record { fields = fields; headers = headers }) }
        ensures { IfOk result (λ s. s ≡ record { fields = fields; headers = headers }) }
    {
        let text = spell(alloc, &fields, headers.as_slice(), old)?;
        Ok(Super {
            fields,
            headers,
            text,
        })
    }

    // The value of a good copy.
    pub(crate) fn read(alloc: Global, bytes: &[u8]) -> Result<Super, NoMemory>
        requires size { length bytes.now ≡ COPY_SIZE }
        requires good { is_some (value_of bytes.now) ≡ true }
        ensures { IfOk result (λ s. value_of bytes.now ≡ Some s) }
    {
        let count = few_at(bytes);
        let (_, list) = bytes.split_at(LIST_AT);
        let headers = read_list(alloc, list, count)?;
        let (_, named) = bytes.split_at(NAMED_AT);
        let text = Vec::from_slice(alloc, named)?;
        Ok(Super {
            fields: fields_at(bytes),
            headers,
            text,
        })
    }

    /// All of it but the headers.
    pub fn fields(&self) -> Fields
        ensures value { result ≡ self.now.fields }
        ensures good { IsGood self.now }
    {
        self.fields
    }

    /// The headers of the last ops up to the head.
    pub fn headers(&self) -> &[Header]
        ensures { result.now ≡ self.now.headers }
    {
        self.headers.as_slice()
    }

    // The 128 bytes of a header, copied where the list has it in the place of its op.
    pub(crate) fn spelling(&self, header: &Header, names: &Names) -> [u8; HEADER_SIZE]
        ensures { result ≡ header_bytes header.now }
    {
        let Some(first) = self.headers.get(0) else {
            return spelled(header, names.name_of(header));
        };
        let at = header.op.saturating_sub(first.op) as usize;
        match self.headers.get(at) {
            Some(same) if same == *header => header_bytes(
                &self.text,
                TEXT_LIST_AT + HEADER_SIZE * at,
            ),
            _ => spelled(header, names.name_of(header)),
        }
    }

    // Keeps a header of the list with its name, which stands in the text.
    fn tell_name(&self, at: usize, names: &mut Names) {
        match self.headers.get(at) {
            Some(header) => names.keep(
                &header,
                sum_at(&self.text, TEXT_LIST_AT + HEADER_SIZE * at),
            ),
            None => {}
        }
    }

    /// Keeps the headers with their names, which stand in the text.
    pub fn tell_names(&self, names: &mut Names) {
        for at in 0..self.headers.len() {
            self.tell_name(at, names);
        }
    }

    // Whether the list has this header in the place of its op.
    pub(crate) fn lists(&self, header: &Header) -> bool {
        let headers = self.headers.as_slice();
        match headers.first() {
            Some(first) => {
                let at = header.op.saturating_sub(first.op) as usize;
                at < headers.len() && headers[at] == *header
            }
            None => false,
        }
    }

    // How many sectors of a copy stand in front of zeros: in each of them the bytes of four headers fit, and the numbers take
    // the room of one.
    pub(crate) fn filled(&self) -> u32
        ensures least { 1 ≤ result }
        ensures most { result ≤ 20 }
        ensures zeros { drop (512 * result) (copy_bytes self.now) ≡ replicate (512 * (20 - result)) 0 }
    {
        1 + self.headers.len() as u32 / 4
    }

    // What a copy has after its name.
    pub(crate) fn text(&self) -> &[u8]
        ensures text { result.now ≡ named_bytes self.now }
        ensures copy { copy_of result.now ≡ copy_bytes self.now }
        ensures size { length result.now ≡ TEXT_SIZE }
        ensures good { IsGood self.now }
    {
        self.text.as_slice()
    }
}
