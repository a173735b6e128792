// A block that passes check 3: its fields, its two lists as parts of its bytes, and the other checks of reading. No other file computes where a list
// begins.
ghost use Rattle.std.specs.Prelude.{◌≡◌, false, MatchOption};
ghost use Rattle.block.specs.Layout.{site_of, sequence_of, reference_count, request_count, reference_list, request_list};
ghost use Rattle.block.specs.Reading.{well_shaped, reading};
ghost use Rattle.block.specs.Promises.{Shaped};

use crate::{
    Fields, HEADER_SIZE, MAX_REFERENCES, MAX_REQUESTS, REFERENCE_SIZE, REQUEST_SIZE, references,
    requests,
};
use answer::Refusal;
use std::marker::Model;

// Check 3: whether the bytes have a block's header, counts within the limits, and the length that the counts tell.
fn well_shaped(block: &[u8]) -> bool
    ensures { result ≡ well_shaped block.now }
{
    if block.len() < HEADER_SIZE {
        return false;
    }
    let p = usize::from(block[3]);
    let r = usize::from(block[4]);
    if MAX_REFERENCES < p {
        return false;
    }
    if MAX_REQUESTS < r {
        return false;
    }
    block.len() == HEADER_SIZE + REFERENCE_SIZE * p + REQUEST_SIZE * r
}

// The bytes of a block that passes check 3. In clauses it is these bytes.
#[derive(Drop)]
pub struct ShapedBlock<'a> {
    bytes: &'a [u8],
}

impl<'a> Model for ShapedBlock<'a> {
    ghost use Rattle.base.specs.Bytes.{Bytes};

    ghost Value = { Bytes };

    ghost use Rattle.block.specs.Promises.{Shaped};

    ghost view = { λ block. block.bytes.now };

    ghost invariant = { λ block. Shaped block.bytes.now };
}

impl<'a> ShapedBlock<'a> {
    // The block, where its bytes pass check 3.
    pub fn new(bytes: &'a [u8]) -> Option<ShapedBlock<'a>>
        ensures { MatchOption result (well_shaped bytes.now ≡ false) (λ block. (block ≡ bytes.now) × Shaped bytes.now) }
    {
        if well_shaped(bytes) {
            Some(ShapedBlock::tested(bytes))
        } else {
            None
        }
    }

    // The block, where its bytes are known to pass check 3.
    pub fn tested(bytes: &'a [u8]) -> ShapedBlock<'a>
        requires { Shaped bytes.now }
        ensures { result ≡ bytes.now }
    {
        ShapedBlock { bytes }
    }

    pub fn bytes(&self) -> &'a [u8]
        ensures bytes { result.now ≡ self.now }
        ensures shape { Shaped self.now }
    {
        &self.bytes[..]
    }

    pub fn site(&self) -> u8
        ensures { result ≡ site_of self.now }
    {
        self.bytes[0]
    }

    pub fn sequence(&self) -> u16
        ensures { result ≡ sequence_of self.now }
    {
        u16::from_be_bytes([self.bytes[1], self.bytes[2]])
    }

    pub fn reference_count(&self) -> usize
        ensures { result ≡ reference_count self.now }
    {
        usize::from(self.bytes[3])
    }

    pub fn request_count(&self) -> usize
        ensures { result ≡ request_count self.now }
    {
        usize::from(self.bytes[4])
    }

    pub fn references(&self) -> &'a [u8]
        ensures list { result.now ≡ reference_list self.now }
        ensures shape { Shaped self.now }
    {
        let p = usize::from(self.bytes[3]);
        &self.bytes[HEADER_SIZE..HEADER_SIZE + REFERENCE_SIZE * p]
    }

    pub fn requests(&self) -> &'a [u8]
        ensures list { result.now ≡ request_list self.now }
        ensures shape { Shaped self.now }
    {
        let p = usize::from(self.bytes[3]);
        &self.bytes[HEADER_SIZE + REFERENCE_SIZE * p..]
    }

    // Checks 6, 18 and 7, and then the fields.
    pub fn read(&self) -> Result<Fields, Refusal>
        ensures { result ≡ reading self.now }
    {
        let list = self.requests();
        if let Some(bad) = requests::first_bad(list) {
            return Err(Refusal::BadRequest(bad));
        }
        if let Some(repeated_slot) = requests::first_of_repeated_slot(list) {
            return Err(Refusal::RepeatedSlot(repeated_slot));
        }
        if let Some(repeated) = references::first_repeated(self.references()) {
            return Err(Refusal::RepeatedReference(repeated));
        }
        Ok(Fields {
            site: self.site(),
            sequence: self.sequence(),
            references: self.reference_count(),
            requests: self.request_count(),
        })
    }
}
