// The messages made in the blocks that a place refers to, and the record after hearing them.
ghost use Rattle.std.specs.Prelude.{◌≡◌, ◌≤◌};
ghost use Rattle.setup.specs.Setup.{max_sites};
ghost use Rattle.broadcast.specs.declared.Kind.TheVariants.{Send, Echo, Ready};
ghost use Rattle.interpret.specs.Steps.{PlaceList, least_of, lowest_of, heard_from, heard_all};

use broadcast::{Kind, SlotRecord};
use records::RecordBuffer;
use setup::MAX_SITES;
use table::{TableBytes, rows};

// The lower of two numbers, where 0 is none: a record holds plain numbers (broadcast/specs/Record.antt), of which an Option would have to be made here.
fn least(v: u16, w: u16) -> u16
    ensures { result ≡ least_of v w }
{
    if v == 0 {
        w
    } else if w == 0 {
        v
    } else {
        v.min(w)
    }
}

// For each site, the lowest number of each kind that was made in its blocks, 0 if there is none. A higher number has no effect: of a sender's
// messages of one kind only the first counts. One pass fills the three lists; a pass for each kind takes more than twice the time.
#[derive(Clone, Copy)]
struct Lowest {
    sends: [u16; MAX_SITES],
    echoes: [u16; MAX_SITES],
    readies: [u16; MAX_SITES],
}

// The record after one message of this kind from each site whose number in `low` is not 0, lower senders first.
fn hear(state: SlotRecord, n: u8, owner: u8, kind: Kind, low: &[u16; MAX_SITES]) -> SlotRecord
    requires { n ≤ max_sites }
    ensures { result ≡ heard_from n owner kind low.now n state }
{
    let mut heard = state;
    for p in 0..n {
        let number = low[usize::from(p)];
        if number != 0 {
            broadcast::receive(&mut heard, n, owner, kind, p, number);
        }
    }
    heard
}

// The blocks at a list of places, with their records in a slot.
#[derive(Clone, Copy)]
pub struct HeldBlocks<'a> {
    pub table: &'a TableBytes,
    pub places: &'a [u8],
    pub records: &'a RecordBuffer,
    pub slot: usize,
}

impl HeldBlocks<'_> {
    // For each site, the lowest number of each kind that was made in its blocks.
    fn lowest(self) -> Lowest
        requires { PlaceList self.table.now self.places.now self.slot }
        ensures sends_value { result.sends ≡ lowest_of self.entry.table.now self.entry.places.now self.entry.records.now self.entry.slot Send }
        ensures echoes_value { result.echoes ≡ lowest_of self.entry.table.now self.entry.places.now self.entry.records.now self.entry.slot Echo }
        ensures readies_value { result.readies ≡ lowest_of self.entry.table.now self.entry.places.now self.entry.records.now self.entry.slot Ready }
    {
        let mut low = Lowest {
            sends: [0; MAX_SITES],
            echoes: [0; MAX_SITES],
            readies: [0; MAX_SITES],
        };
        for place in self.places {
            let j = usize::from(*place);
            let site = usize::from(rows::site_at(self.table, j));
            let made = records::made_in(self.records, j, self.slot);
            low.sends[site] = least(made.send, low.sends[site]);
            low.echoes[site] = least(made.echo, low.echoes[site]);
            low.readies[site] = least(made.ready, low.readies[site]);
        }
        low
    }

    // The record after all messages made in the blocks: SENDs before ECHOs before READYs.
    pub fn hear_all(self, state: SlotRecord) -> SlotRecord
        requires { PlaceList self.table.now self.places.now self.slot }
        ensures { result ≡ heard_all self.entry.table.now self.entry.places.now self.entry.records.now self.entry.slot state }
    {
        let low = self.lowest();
        let n = rows::sites_of(self.table);
        let owner = rows::owner_of(self.table, self.slot);
        let sent = hear(state, n, owner, Kind::Send, &low.sends);
        let echoed = hear(sent, n, owner, Kind::Echo, &low.echoes);
        hear(echoed, n, owner, Kind::Ready, &low.readies)
    }
}
