// Reading at every limit, each refusal with its index, and the order of the checks where several faults meet.
ghost use Rattle.std.specs.Prelude.{◌<◌};
ghost use Rattle.setup.specs.Setup.{slot_count};
ghost use Rattle.block.specs.Limits.{max_references};

use crate::show::Answered;
use block::{
    HEADER_SIZE, MAX_BLOCK_SIZE, MAX_REFERENCES, MAX_REQUESTS, REFERENCE_SIZE, REQUEST_SIZE,
};
use setup::SLOTS;

// Room for a block of one reference too many.
const ROOM: usize = HEADER_SIZE + REFERENCE_SIZE * (MAX_REFERENCES + 1);

// Where the requests of a block of the most references begin.
pub const REQUESTS: usize = HEADER_SIZE + REFERENCE_SIZE * MAX_REFERENCES;

// The bytes of a block of the most references, in that room, and the faults that can be put into them.
#[derive(Clone, Copy)]
pub struct Draft {
    pub bytes: [u8; ROOM],
}

impl Draft {
    // The block with reference i equal to what reference j of a full block is.
    fn with_reference(mut self, i: usize, j: u8) -> Draft
        requires { (i < max_references) × (j < max_references) }
    {
        let at = HEADER_SIZE + REFERENCE_SIZE * i;
        self.bytes[at..at + REFERENCE_SIZE].fill(j + 1);
        self
    }

    // The block with request i asking for this number in this slot.
    fn with_request(mut self, i: usize, slot: u8, number: u8) -> Draft
        requires { i < slot_count }
    {
        let at = REQUESTS + REQUEST_SIZE * i;
        self.bytes[at..at + REQUEST_SIZE].copy_from_slice(&[slot, 0, number]);
        self
    }

    // The block with p and r as its counts.
    fn with_counts(mut self, p: u8, r: u8) -> Draft {
        self.bytes[3] = p;
        self.bytes[4] = r;
        self
    }
}

// A block of the most references and requests, and behind it requests of the other slots: reference i is 32 times the byte i + 1, request i asks for
// i + 1 in slot i.
pub fn full() -> Draft {
    let mut b = Draft { bytes: [0; ROOM] };
    b.bytes[..3].copy_from_slice(&[3, 1, 2]);
    for i in 0..MAX_REFERENCES {
        b = b.with_reference(i, i as u8);
    }
    for i in 0..SLOTS {
        b = b.with_request(i, i as u8, (i + 1) as u8);
    }
    b.with_counts(MAX_REFERENCES as u8, MAX_REQUESTS as u8)
}

fn show(rt: &impl Print, name: &str, bytes: &[u8]) {
    let count = bytes.len();
    let _ = match block::read_block(bytes) {
        Ok(fields) => println!(rt;
            "{name}, {count} bytes: read, site {} seq {} references {} requests {}",
            fields.site, fields.sequence, fields.references, fields.requests
        ),
        Err(refusal) => println!(rt; "{name}, {count} bytes: {}", Answered(refusal.into())),
    };
}

// Shows what reading answers for the first n bytes.
fn show_front(rt: &impl Print, name: &str, draft: Draft, n: usize) {
    if let Some(front) = draft.bytes.get(..n) {
        show(rt, name, front);
    }
}

// Shows what reading answers for as many bytes as a block can have.
fn show_longest(rt: &impl Print, name: &str, draft: Draft) {
    show_front(rt, name, draft, MAX_BLOCK_SIZE);
}

// Shows a block of the most references and r requests.
fn show_requesting(rt: &impl Print, name: &str, r: u8) {
    let draft = full().with_counts(MAX_REFERENCES as u8, r);
    show_front(rt, name, draft, REQUESTS + REQUEST_SIZE * usize::from(r));
}

fn show_lengths(rt: &impl Print) {
    show(rt, "nothing", &[]);
    show(rt, "zeros", &[0; 4]);
    show(rt, "zeros", &[0; 5]);
    show(rt, "zeros", &[0; 6]);
    show(rt, "site 255, seq 65535", &[255, 255, 255, 0, 0]);
    let b = full();
    show_front(rt, "p 16, r 5, a byte less", b, MAX_BLOCK_SIZE - 1);
    show_longest(rt, "p 16, r 5", b);
    show_front(rt, "p 16, r 5, a byte more", b, MAX_BLOCK_SIZE + 1);
}

fn show_counts(rt: &impl Print) {
    show(rt, "p 17, r 0", &full().with_counts(17, 0).bytes);
    show_requesting(rt, "p 16, r 0", 0);
    show_requesting(rt, "p 16, r 6", 6);
    show_requesting(rt, "p 16, r 8", 8);
    show(
        rt,
        "p 0, r 6",
        &[
            0, 0, 0, 0, 6, 0, 0, 1, 1, 0, 1, 2, 0, 1, 3, 0, 1, 4, 0, 1, 5, 0, 1,
        ],
    );
}

fn show_requests(rt: &impl Print) {
    let b = full();
    show_longest(rt, "slot 8 at 3", b.with_request(3, 8, 1));
    show_longest(rt, "number 0 at 4", b.with_request(4, 4, 0));
    let c = b.with_request(4, 255, 1).with_request(2, 2, 0);
    show_longest(rt, "slot 255 at 4, number 0 at 2", c);
}

// Slot 5 is not requested.
fn show_counted(rt: &impl Print) {
    let b = full();
    for slot in [0, 4, 5] {
        let list = &b.bytes[REQUESTS..MAX_BLOCK_SIZE];
        let number = block::requests::counted_request(list, slot);
        let _ = println!(rt; "slot {slot} counts {number}");
    }
}

fn show_slots(rt: &impl Print) {
    let b = full();
    show_longest(rt, "slot 0 at 0 and at 3", b.with_request(3, 0, 9));
    show_longest(rt, "slot 1 at 0 and at 1", b.with_request(0, 1, 2));
    let c = b.with_request(3, 1, 9).with_request(4, 0, 9);
    show_longest(rt, "slot 1 at 1 and at 3, 0 at 0 and at 4", c);
    let d = b.with_request(0, 7, 1);
    show_longest(rt, "slot 7 at 0", d);
    show_longest(rt, "slot 7 at 0 and at 4", d.with_request(4, 7, 1));
}

fn show_references(rt: &impl Print) {
    let b = full();
    show_longest(rt, "reference 5 as 1", b.with_reference(5, 1));
    let c = b.with_reference(9, 2).with_reference(4, 3);
    show_longest(rt, "reference 9 as 2, 4 as 3", c);
    show_longest(rt, "reference 15 as 14", b.with_reference(15, 14));
}

fn show_orders(rt: &impl Print) {
    let b = full().with_reference(1, 0);
    show_longest(
        rt,
        "slot 0 at 0 and at 4, reference 1 as 0",
        b.with_request(4, 0, 1),
    );
    show_longest(
        rt,
        "number 0 at 4, slot 0 at 0 and at 1",
        b.with_request(1, 0, 1).with_request(4, 4, 0),
    );
    show_longest(
        rt,
        "number 0 at 4, reference 1 as 0",
        b.with_request(4, 4, 0),
    );
    show_longest(rt, "slot 8 at 2, reference 1 as 0", b.with_request(2, 8, 1));
    show_front(rt, "reference 1 as 0", b, MAX_BLOCK_SIZE + 1);
    let c = b.with_request(0, 8, 1);
    show_front(rt, "slot 8 at 0, reference 1 as 0", c, MAX_BLOCK_SIZE - 1);
    show_longest(
        rt,
        "p 17, slot 8 at 0, reference 1 as 0",
        c.with_counts(17, MAX_REQUESTS as u8),
    );
}

// A block written into a longer output is read back, and the output's other bytes stay.
fn show_written(rt: &impl Print) {
    let b = full();
    let mut output = [7; ROOM];
    block::writing::write_block(
        9,
        258,
        &b.bytes[5..69],
        &b.bytes[REQUESTS..REQUESTS + 6],
        &mut output,
    );
    let after = output[75];
    show_front(rt, "written, p 2, r 2", Draft { bytes: output }, 75);
    let _ = println!(rt; "after it: {after}");
}

pub fn show_all(rt: &impl Print) {
    show_lengths(rt);
    show_counts(rt);
    show_requests(rt);
    show_counted(rt);
    show_slots(rt);
    show_references(rt);
    show_orders(rt);
    show_written(rt);
}
