// The record buffer, which the caller lends: where each number stands, a record read, a place's part read and put, and parts moved down. No
// other crate computes an index into it. Promises: each function is its definition in specs/, and a record that was put is read back
// (proofs/RecordNumbers.antt, proofs/Parts.antt). Assumes nothing.

#![tactic(auto)]

mod numbers;

ghost use Rattle.std.specs.Prelude.{◌≡◌, ◌*◌, ◌≤◌, ◌<◌, length};
ghost use Rattle.base.specs.Bytes.{splice};
ghost use Rattle.setup.specs.Setup.{slot_count};
ghost use Rattle.table.specs.View.{max_places};
ghost use Rattle.records.specs.Layout.{record_size, flatten, part_size, part_start, part_of, record_in, delivered_in};
ghost use Rattle.records.specs.Moving.{moved_parts};

use broadcast::{Sent, SlotRecord};
use setup::{MAX_SITES, SLOTS};
use table::MAX_PLACES;

// Where a record's numbers stand: what was sent so far, the ECHO and the READY heard from each site, and what was made in its block.
const SENT_COUNT: usize = 4;

const ECHOES_OFFSET: usize = SENT_COUNT;

const READIES_OFFSET: usize = ECHOES_OFFSET + MAX_SITES;

const MADE_OFFSET: usize = READIES_OFFSET + MAX_SITES;

const RECORD_SIZE: usize = MADE_OFFSET + SENT_COUNT;

// How many numbers the part of a place has, and the buffer for all places.
pub const PART_SIZE: usize = RECORD_SIZE * SLOTS;

pub const BUFFER_SIZE: usize = PART_SIZE * MAX_PLACES;

// The record buffer of a table.
pub type RecordBuffer = [u16; BUFFER_SIZE];

// The record of a slot in the part of a place.
pub fn record_in(records: &RecordBuffer, place: usize, slot: usize) -> SlotRecord
    requires { (place < max_places) × (slot < slot_count) }
    ensures { result ≡ record_in records.now place slot }
{
    numbers::record_at(records, PART_SIZE * place + RECORD_SIZE * slot)
}

// What was made in the block of a place, in a slot.
#[tactic(auto, unfolding(crate::specs::Layout::record_at))]
pub fn made_in(records: &RecordBuffer, place: usize, slot: usize) -> Sent
    requires { (place < max_places) × (slot < slot_count) }
    ensures { result ≡ (record_in records.now place slot).made }
{
    numbers::sent_at(
        records,
        PART_SIZE * place + RECORD_SIZE * slot + MADE_OFFSET,
    )
}

// The number that the block of a place delivers in a slot, 0 if there is none.
pub fn delivered_in(records: &RecordBuffer, place: usize, slot: usize) -> u16
    requires { (place < max_places) × (slot < slot_count) }
    ensures { result ≡ delivered_in records.now place slot }
{
    made_in(records, place, slot).delivered
}

// Puts the record of a slot into a place's part; all other numbers stay.
pub fn put_record(part: &mut [u16; PART_SIZE], slot: usize, state: SlotRecord)
    requires { slot < slot_count }
    ensures { part.new ≡ splice part.old (record_size * slot) (flatten state) }
{
    numbers::put_record(part, RECORD_SIZE * slot, state);
}

// The part of a place.
#[tactic(auto, using(base::proofs::Parts::part_size_lem))]
pub fn part(records: &RecordBuffer, place: usize) -> &[u16]
    requires { place < max_places }
    ensures { result.now ≡ part_of records.now place }
{
    let at = PART_SIZE * place;
    &records[at..at + PART_SIZE]
}

// Puts the part of a place. An empty part changes nothing, and all numbers of other places stay.
pub fn put_part(records: &mut RecordBuffer, place: usize, part: &[u16])
    requires { (place < max_places) × (length part.now ≤ part_size) }
    ensures { records.new ≡ splice records.old (part_start place) part.now }
{
    base::put(records, PART_SIZE * place, part);
}

// Moves the parts of the places 1 to count - 1 each one place lower; all numbers from place count - 1 on stay.
#[tactic(auto, using(crate::proofs::Moving::moved_down))]
pub fn move_parts(records: &mut RecordBuffer, count: usize)
    requires { (0 < count) × (count ≤ max_places) }
    ensures { records.new ≡ moved_parts records.old count }
{
    records.copy_within(PART_SIZE..PART_SIZE * count, 0);
}
