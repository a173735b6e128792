// A block's bytes: reading, the fields and the two lists as parts, the entries of the lists, and writing. Promises: reading is the documents', each
// refusal comes under its cause and under no other (specs/Promises.antt), every block that the reader accepts is the one encoding of its content, and
// writing gives that encoding (specs/Codec.antt). Assumes nothing: any bytes are read or refused.

#![tactic(auto)]

pub mod references;
pub mod requests;
pub mod shaped;
pub mod writing;

ghost use Rattle.std.specs.Prelude.{◌≡◌};
ghost use Rattle.block.specs.Reading.{reading};

use answer::Refusal;
pub use shaped::ShapedBlock;

// Sizes in bytes, and the limits of a block.
pub const HEADER_SIZE: usize = 5;

pub const REFERENCE_SIZE: usize = 32;

pub const REQUEST_SIZE: usize = 3;

pub const MAX_REFERENCES: usize = 16;

pub const MAX_REQUESTS: usize = 5;

pub const MAX_REQUEST_LIST_SIZE: usize = REQUEST_SIZE * MAX_REQUESTS;

pub const MAX_BLOCK_SIZE: usize = HEADER_SIZE
    + REFERENCE_SIZE * MAX_REFERENCES
    + MAX_REQUEST_LIST_SIZE;

// A digest, by which a block is referred to.
pub type DigestBytes = [u8; REFERENCE_SIZE];

// A slot, and the amendment number that is requested in it.
#[derive(Clone, Copy, Debug, PartialEq, Eq)]
pub struct Request {
    pub slot: u8,
    pub number: u16,
}

// A block's fields. Of its two lists only the counts of entries are here: the lists are parts of the block's bytes.
#[repr(C)]
#[derive(Clone, Copy, Debug, PartialEq, Eq)]
pub struct Fields {
    pub site: u8,
    pub sequence: u16,
    pub references: usize,
    pub requests: usize,
}

// Reads a block: its fields, or the first check that it fails, of 6, 18 and 7 with the index of the first entry that fails it.
pub fn read_block(block: &[u8]) -> Result<Fields, Refusal>
    ensures { result ≡ reading block.now }
{
    let Some(shaped) = ShapedBlock::new(block) else {
        return Err(Refusal::Misshapen);
    };
    shaped.read()
}
