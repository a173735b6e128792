// One arrival: the block is admitted and interpreted, and its lines are made.
ghost use Rattle.std.specs.Prelude.{◌≡◌, ◌<◌};
ghost use Rattle.sha256.specs.Sha256.{sha256};
ghost use Rattle.table.specs.View.{max_places};
ghost use Rattle.report.specs.Listing.{delivery_lines, site_arrived, arrival_lines};

use crate::{Delivery, Lines, lines};
use block::ShapedBlock;
use records::RecordBuffer;
use setup::SLOTS;

// The lines of the deliveries of the block at a place, lower slots first.
fn delivery_lines(
    records: &RecordBuffer,
    arrival: u64,
    place: usize,
    site: u8,
    sequence: u16,
) -> Lines
    requires { place < max_places }
    ensures { result ≡ delivery_lines records.now arrival place site sequence }
{
    let mut lines = Lines::new();
    for slot in 0..SLOTS {
        lines.push_delivery(Delivery {
            arrival,
            place,
            site,
            sequence,
            slot,
            number: records::delivered_in(records, place, slot),
        });
    }
    lines
}

// Admits a block that arrives, interprets it, and answers with its lines: those of its deliveries, or that of its refusal.
pub fn arrive(
    arrival: u64,
    table: &mut [u8],
    records: &mut [u16],
    block: &[u8],
    verdict: u8,
) -> Lines
    ensures value { result ≡ arrival_lines sha256 (record { table = table.old; records = records.old }) block.now verdict arrival }
    ensures table_after { table.new ≡ (site_arrived sha256 (record { table = table.old; records = records.old }) block.now verdict).table }
    ensures records_after { records.new ≡ (site_arrived sha256 (record { table = table.old; records = records.old }) block.now verdict).records }
{
    let place = match admission::admit(table, block, verdict) {
        Ok(place) => place,
        Err(refusal) => return lines::refused(arrival, refusal),
    };
    if let Err(refusal) = interpret::interpret(table, place, records) {
        return lines::refused(arrival, refusal);
    }
    // Interpretation has tested the buffer's length.
    let Some(records) = records.as_array() else {
        unreachable!();
    };
    // Admission has tested the block's shape.
    let shaped = ShapedBlock::tested(block);
    delivery_lines(records, arrival, place, shaped.site(), shaped.sequence())
}
