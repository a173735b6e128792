// A site as the campaigns have it, and its calls.
use answer::Refusal;
use block::MAX_BLOCK_SIZE;
use records::{BUFFER_SIZE, RecordBuffer};
use setup::SLOTS;
use table::TableBytes;

// The empty table of a setup. An unlawful setup gives zeros, which every call refuses.
pub fn fresh_table(sites: u8, owners: [u8; SLOTS]) -> TableBytes {
    table::fresh(sites, owners).table
}

#[derive(Drop)]
pub struct TestSite {
    pub table: TableBytes,
    pub records: RecordBuffer,
}

impl TestSite {
    // A site that holds nothing.
    pub fn new(sites: u8, owners: [u8; SLOTS]) -> TestSite {
        TestSite {
            table: fresh_table(sites, owners),
            records: [0; BUFFER_SIZE],
        }
    }

    // Admits a block that the link has verified.
    pub fn admit(&mut self, block: &[u8]) -> Result<usize, Refusal> {
        admission::admit(&mut self.table, block, 1)
    }

    pub fn interpret(&mut self, place: usize) -> Result<(), Refusal> {
        interpret::interpret(&mut self.table, place, &mut self.records)
    }

    // Builds the next block of a site at the front of the room, and hands out that front.
    pub fn build<'a>(
        &self,
        site: u8,
        requests: &[u8],
        room: &'a mut [u8; MAX_BLOCK_SIZE],
    ) -> Result<&'a [u8], Refusal> {
        let length = build::build(&self.table, site, requests, room)?;
        room.get(..length).ok_or(Refusal::NoRoom(length))
    }

    pub fn retire(&mut self) -> Result<(), Refusal> {
        retire::retire(&mut self.table, &mut self.records)
    }
}
