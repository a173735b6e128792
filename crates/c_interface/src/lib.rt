// What programs in C call: here the digest, and block reading with the entries of a block's two lists; in core_calls.rt the table, the records,
// retiring, taking back, the watch, building, arrivals and joining. Promises: each call here answers and leaves what specs/Calls.antt says, and each
// call of core_calls.rt what the function that it calls does, for all bytes and numbers. Assumes: the C program lends what the headers in host/ ask for.

#![tactic(auto)]

pub mod core_calls;

ghost use Rattle.std.specs.Prelude.{◌≡◌};
ghost use Rattle.answer.specs.Refusals.{done_of};
ghost use Rattle.c_interface.specs.Calls.{digest_answer, put_output, digest_output, read_as, block_reading, reference_answer, reference_output, requested_as, requested};

use answer::{Answer, Refusal};
use block::{DigestBytes, Fields, REFERENCE_SIZE, Request, ShapedBlock};

// What reading a block answers: a success and the block's fields, or the refusal beside fields that are all 0.
#[repr(C)]
#[derive(Clone, Copy, Debug, PartialEq, Eq)]
pub struct BlockReading {
    pub answer: Answer,
    pub fields: Fields,
}

impl From<Result<Fields, Refusal>> for BlockReading {
    ghost from_gives = { λ reading answer. answer ≡ read_as reading };

    fn from(reading: Result<Fields, Refusal>) -> BlockReading {
        BlockReading {
            answer: Answer::from(reading.map(|_| 0)),
            fields: reading.unwrap_or(Fields {
                site: 0,
                sequence: 0,
                references: 0,
                requests: 0,
            }),
        }
    }
}

// A request of a block, or a refusal beside which slot and number are 0.
#[repr(C)]
#[derive(Clone, Copy, Debug, PartialEq, Eq)]
pub struct Requested {
    pub answer: Answer,
    pub slot: u8,
    pub number: u16,
}

impl From<Result<Request, Refusal>> for Requested {
    ghost from_gives = { λ request answer. answer ≡ requested_as request };

    fn from(request: Result<Request, Refusal>) -> Requested {
        let Request { slot, number } = request.unwrap_or(Request { slot: 0, number: 0 });
        Requested {
            answer: Answer::from(request.map(|_| 0)),
            slot,
            number,
        }
    }
}

// Puts a digest at the front of the output, or refuses with 17 and the length needed if there is no room.
fn put_digest(digest: &DigestBytes, output: &mut [u8]) -> Result<(), Refusal>
    ensures value { done_of result ≡ digest_answer output.old }
    ensures output_after { output.new ≡ put_output digest.now output.old }
{
    if output.len() < REFERENCE_SIZE {
        return Err(Refusal::NoRoom(REFERENCE_SIZE));
    }
    base::put(output, 0, digest);
    Ok(())
}

// Puts the reference at an index of a block at the front of the output.
fn put_reference(bytes: &[u8], index: usize, output: &mut [u8]) -> Result<(), Refusal>
    ensures value { done_of result ≡ reference_answer bytes.now index output.old }
    ensures output_after { output.new ≡ reference_output bytes.now index output.old }
{
    let Some(block) = ShapedBlock::new(bytes) else {
        return Err(Refusal::Misshapen);
    };
    let fields = block.read()?;
    if fields.references <= index {
        return Err(Refusal::UnknownPlace);
    }
    put_digest(
        block::references::reference(block.references(), index),
        output,
    )
}

// The request at an index of a block.
fn request(bytes: &[u8], index: usize) -> Result<Request, Refusal>
    ensures { requested_as result ≡ requested bytes.now index }
{
    let Some(block) = ShapedBlock::new(bytes) else {
        return Err(Refusal::Misshapen);
    };
    let fields = block.read()?;
    if fields.requests <= index {
        return Err(Refusal::UnknownPlace);
    }
    let list = block.requests();
    Ok(block::requests::request(list, index))
}

// Puts the message's digest at the front of the output. Refuses with 17.
#[unsafe(no_mangle)]
pub extern "C" fn gt_digest(message: &[u8], output: &mut [u8]) -> Answer
    ensures value { result ≡ digest_answer output.old }
    ensures output_after { output.new ≡ digest_output message.now output.old }
{
    put_digest(&sha256::digest(message), output).into()
}

// Reads a block: its fields, or the reader's refusal.
#[unsafe(no_mangle)]
#[tactic(auto, unfolding(crate::specs::Calls::block_reading))]
pub extern "C" fn gt_read_block(bytes: &[u8]) -> BlockReading
    ensures { result ≡ block_reading bytes.now }
{
    BlockReading::from(block::read_block(bytes))
}

// Puts the reference at an index of a block at the front of the output. Refuses as the reader does, with 13 or with 17.
#[unsafe(no_mangle)]
pub extern "C" fn gt_reference(bytes: &[u8], index: usize, output: &mut [u8]) -> Answer
    ensures value { result ≡ reference_answer bytes.now index output.old }
    ensures output_after { output.new ≡ reference_output bytes.now index output.old }
{
    put_reference(bytes, index, output).into()
}

// The request at an index of a block. Refuses as the reader does, or with 13.
#[unsafe(no_mangle)]
pub extern "C" fn gt_request(bytes: &[u8], index: usize) -> Requested
    ensures { result ≡ requested bytes.now index }
{
    request(bytes, index).into()
}
