// Interpretation of a place: its records from those of the places that it refers to. Promises: `interpret` answers and leaves what
// specs/Interpretation.antt says, for any table, record buffer and place; form is kept, and each of 2 and 12 to 15 comes under its
// cause and under no other (specs/Promises.antt). Assumes nothing.

#![tactic(auto)]

mod hearing;

ghost use Rattle.std.specs.Prelude.{◌≡◌, ◌≤◌, ◌<◌, length, IfSome};
ghost use Rattle.answer.specs.Refusals.{done_of};
ghost use Rattle.base.specs.Count.{count_below};
ghost use Rattle.base.specs.Mask.{in_mask};
ghost use Rattle.base.specs.List.{passing_below};
ghost use Rattle.setup.specs.Setup.{slot_count};
ghost use Rattle.block.specs.Limits.{max_references};
ghost use Rattle.broadcast.specs.Record.{nothing_made};
ghost use Rattle.table.specs.View.{max_places};
ghost use Rattle.table.specs.Layout.{setup_of, references_at, view_of};
ghost use Rattle.interpret.specs.Interpretation.{record_for, written, interpretation, marked, recorded};
ghost use Rattle.interpret.specs.Steps.{referred_by, Interpretable, InterpretableSlot, parent_of, state_at};

use answer::Refusal;
use block::MAX_REFERENCES;
use broadcast::SlotRecord;
use hearing::HeldBlocks;
use records::{PART_SIZE, RecordBuffer};
use setup::SLOTS;
use table::{TableBytes, rows, rules};

// Puts the places that are in the mask and below `place` to the front of the list, lower places first, and hands out that front.
fn list_places(references: u64, place: usize, list: &mut [u8; MAX_REFERENCES]) -> &[u8]
    requires { (place ≤ max_places) × (count_below (in_mask references) max_places ≤ max_references) }
    ensures { result.now ≡ passing_below (in_mask references) place }
{
    let mut count = 0;
    for j in 0..place {
        if base::in_mask(references, j) {
            list[count] = j as u8;
            count += 1;
        }
    }
    &list[..count]
}

// The last place of the list that holds the parent of the block at `place`, if one does.
fn parent_of(table: &TableBytes, place: usize, references: u64, places: &[u8]) -> Option<usize>
    requires { (place < max_places) × (references ≡ references_at table.now place) × (places.now ≡ referred_by table.now place) }
    ensures { result ≡ parent_of table.now place places.now }
{
    let site = rows::site_at(table, place);
    let sequence = rows::sequence_at(table, place);
    let mut parent = None;
    for listed in places {
        let j = usize::from(*listed);
        if rules::refers_to_parent(table, j, references, site, sequence) {
            parent = Some(j);
        }
    }
    parent
}

// How a block starts in a slot: the record at the parent's place, or a blank record without a parent, with nothing made.
fn start_of(records: &RecordBuffer, parent: Option<usize>, slot: usize) -> SlotRecord
    requires { IfSome parent (λ i. i < max_places) × (slot < slot_count) }
    ensures { result ≡ nothing_made (state_at records.now slot parent) }
{
    let blank = broadcast::blank();
    match parent {
        Some(place) => SlotRecord {
            made: blank.made,
            ..records::record_in(records, place, slot)
        },
        None => blank,
    }
}

// The record of a place in a slot: the parent's record with nothing made, then the request, then the messages.
fn slot_record(
    table: &TableBytes,
    place: usize,
    places: &[u8],
    parent: Option<usize>,
    records: &RecordBuffer,
    slot: usize,
) -> SlotRecord
    requires { InterpretableSlot table.now place places.now slot × (parent ≡ parent_of table.now place places.now) }
    ensures { result ≡ record_for (setup_of table.now) (view_of table.now) records.now place slot }
{
    let site = rows::site_at(table, place);
    let owner = rows::owner_of(table, slot);
    let number = rows::request_at(table, place, slot);
    let start = start_of(records, parent, slot);
    let asked = broadcast::take_request(start, owner, site, number);
    let referred = HeldBlocks {
        table,
        places,
        records,
        slot,
    };
    referred.hear_all(asked)
}

// The 320 numbers of a place: its eight records, slot after slot.
fn place_records(table: &TableBytes, place: usize, records: &RecordBuffer) -> [u16; PART_SIZE]
    requires { Interpretable table.now place }
    ensures { result ≡ written (setup_of table.now) (view_of table.now) records.now place }
{
    let references = rows::references_at(table, place);
    let mut list = [0u8; MAX_REFERENCES];
    let places = list_places(references, place, &mut list);
    let parent = parent_of(table, place, references, places);
    let mut out = [0u16; PART_SIZE];
    for slot in 0..SLOTS {
        let state = slot_record(table, place, places, parent, records, slot);
        records::put_record(&mut out, slot, state);
    }
    out
}

// Writes the records of a place and marks the place interpreted. Refuses in the order of document 01; a refusal changes nothing.
pub fn interpret(table: &mut [u8], place: usize, records: &mut [u16]) -> Result<(), Refusal>
    ensures value { done_of result ≡ interpretation table.old records.old place }
    ensures table_after { table.new ≡ marked table.old records.old place }
    ensures records_after { records.new ≡ recorded table.old records.old place }
{
    let Some(table) = table::formed_mut(table) else {
        return Err(Refusal::OutOfForm);
    };
    let Some(records) = records.as_mut_array() else {
        return Err(Refusal::RecordsSize);
    };
    if rows::count_of(table) <= place {
        return Err(Refusal::UnknownPlace);
    }
    if rows::is_interpreted(table, place) {
        return Err(Refusal::Interpreted);
    }
    let references = rows::references_at(table, place);
    if let Some(missing) = rules::first_uninterpreted(table, place, references) {
        return Err(Refusal::Uninterpreted(missing));
    }
    let part = place_records(table, place, records);
    records::put_part(records, place, &part);
    table::writing::set_mark(table, place);
    Ok(())
}
