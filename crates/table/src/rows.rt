// What a table's bytes show: n, the owners, whether something has been retired, the count, and the fields of a row.
ghost use Rattle.std.specs.Prelude.{◌≡◌, ◌<◌};
ghost use Rattle.setup.specs.Setup.{owner_of, slot_count};
ghost use Rattle.table.specs.View.{max_places, interpreted};
ghost use Rattle.table.specs.Layout.{setup_of, retired_of, count_of, digest_at, site_at, sequence_at, references_at, counted_request_at, mark_at, row_at};

use crate::{
    COUNT_OFFSET, MARK_OFFSET, OWNERS_OFFSET, REFERENCES_OFFSET, REQUESTS_OFFSET, RETIRED_OFFSET,
    ROW_SIZE, ROWS_OFFSET, SEQUENCE_OFFSET, SITE_OFFSET, TableBytes,
};
use block::{DigestBytes, REFERENCE_SIZE};

pub fn sites_of(table: &TableBytes) -> u8
    ensures { result ≡ (setup_of table.now).sites }
{
    table[0]
}

pub fn owner_of(table: &TableBytes, slot: usize) -> u8
    requires { slot < slot_count }
    ensures { result ≡ owner_of (setup_of table.now) slot }
{
    table[OWNERS_OFFSET + slot]
}

pub fn owners_of(table: &TableBytes) -> &[u8]
    ensures { result.now ≡ (setup_of table.now).owners }
{
    &table[OWNERS_OFFSET..RETIRED_OFFSET]
}

// 1 if the table has retired something, 0 if not.
pub fn retired_of(table: &TableBytes) -> u8
    ensures { result ≡ retired_of table.now }
{
    table[RETIRED_OFFSET]
}

pub fn count_of(table: &TableBytes) -> usize
    ensures { result ≡ count_of table.now }
{
    usize::from(table[COUNT_OFFSET])
}

pub fn digest_at(table: &TableBytes, i: usize) -> &DigestBytes
    requires { i < max_places }
    ensures { result.now ≡ digest_at table.now i }
{
    let at = ROWS_OFFSET + ROW_SIZE * i;
    table[at..at + REFERENCE_SIZE].as_array().unwrap()
}

pub fn site_at(table: &TableBytes, i: usize) -> u8
    requires { i < max_places }
    ensures { result ≡ site_at table.now i }
{
    table[ROWS_OFFSET + ROW_SIZE * i + SITE_OFFSET]
}

pub fn sequence_at(table: &TableBytes, i: usize) -> u16
    requires { i < max_places }
    ensures { result ≡ sequence_at table.now i }
{
    let at = ROWS_OFFSET + ROW_SIZE * i + SEQUENCE_OFFSET;
    u16::from_be_bytes([table[at], table[at + 1]])
}

// The mask of the places that the block at place i refers to.
pub fn references_at(table: &TableBytes, i: usize) -> u64
    requires { i < max_places }
    ensures { result ≡ references_at table.now i }
{
    let at = ROWS_OFFSET + ROW_SIZE * i + REFERENCES_OFFSET;
    u64::from_le_bytes(table[at..at + size_of::<u64>()].try_into().unwrap())
}

// The counted request of the block at place i in a slot, 0 if none.
pub fn request_at(table: &TableBytes, i: usize, slot: usize) -> u16
    requires { (i < max_places) × (slot < slot_count) }
    ensures { result ≡ counted_request_at table.now i slot }
{
    let at = ROWS_OFFSET + ROW_SIZE * i + REQUESTS_OFFSET + 2 * slot;
    u16::from_be_bytes([table[at], table[at + 1]])
}

// Whether the block at place i is interpreted.
pub fn is_interpreted(table: &TableBytes, i: usize) -> bool
    requires { i < max_places }
    ensures { result ≡ interpreted (row_at table.now i) }
{
    mark_at(table, i) == 1
}

// 1 if the block at place i is interpreted, 0 if not. A table that is not in form may have any byte there.
pub fn mark_at(table: &TableBytes, i: usize) -> u8
    requires { i < max_places }
    ensures { result ≡ mark_at table.now i }
{
    table[ROWS_OFFSET + ROW_SIZE * i + MARK_OFFSET]
}
