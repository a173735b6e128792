// A campaign of 240 blocks that goes on by retiring, with SHA-256.
ghost use Rattle.std.specs.Prelude.{◌<◌};
ghost use Rattle.setup.specs.Setup.{slot_count};

use crate::site::TestSite;
use answer::Refusal;
use block::MAX_BLOCK_SIZE;
use table::MAX_PLACES;

// How many turns the campaign has: 60 rounds of four sites.
const TURNS: u8 = 240;

// Retires as long as place 0 can be retired, and answers how many blocks were retired.
fn retire_all(site: &mut TestSite) -> usize {
    (0..MAX_PLACES)
        .take_while(|_| site.retire().is_ok())
        .count()
}

// Admits a block, where the table is full after retiring all that can be retired, and answers with its place.
fn admit(rt: &impl Print, site: &mut TestSite, block: &[u8]) -> Result<usize, Refusal> {
    match site.admit(block) {
        Err(Refusal::TableFull) => {
            let retired = retire_all(site);
            let _ = println!(rt; "full, retired: {retired}");
            site.admit(block)
        }
        answer => answer,
    }
}

// Shows what the block at a place delivers in a slot, if anything.
fn show_delivery(rt: &impl Print, site: &TestSite, place: usize, slot: usize)
    requires { slot < slot_count }
{
    if place < MAX_PLACES {
        let delivery = records::delivered_in(&site.records, place, slot);
        if delivery != 0 {
            let _ = println!(rt; "place {place} slot {slot} delivery {delivery}");
        }
    }
}

// Admits and interprets a block, and shows what it delivers in the slots that are requested.
fn bring(rt: &impl Print, site: &mut TestSite, block: &[u8]) -> Result<(), Refusal> {
    let place = admit(rt, site, block)?;
    site.interpret(place)?;
    for slot in [0, 5, 7] {
        show_delivery(rt, site, place, slot);
    }
    Ok(())
}

// The requests of a turn. Site 0 requests 42 in round 0, site 1 requests 1610 in round 40, and site 3 requests 7 in round 45, by a block with which
// the table is full: its number is delivered after a retiring.
fn requests_of(turn: u8) -> &'static [u8] {
    match turn {
        0 => &[0, 0, 42],
        161 => &[5, 6, 74],
        183 => &[7, 0, 7],
        _ => &[],
    }
}

// One turn of a campaign in which four sites build in turn from one table: the site of this turn builds a block, which is brought to that table.
fn take_turn(rt: &impl Print, site: &mut TestSite, turn: u8) -> Result<(), Refusal> {
    let mut room = [0; MAX_BLOCK_SIZE];
    let block = site.build(turn % 4, requests_of(turn), &mut room)?;
    bring(rt, site, block)
}

// Shows that campaign, and what is delivered at place 59 after it. The 7 is the work of the block that stands there: no block that stood at place 59
// before a retiring had it. A refusal would show in the numbers at the end.
pub fn show_all(rt: &impl Print) {
    let _ = println!(rt; "n 4, 60 rounds");
    let mut site = TestSite::new(4, [0, 1, 2, 3, 0, 1, 2, 3]);
    for turn in 0..TURNS {
        let _ = take_turn(rt, &mut site, turn);
    }
    let _ = println!(rt; "held: {}", table::rows::count_of(&site.table));
    for slot in [0, 7] {
        let sent = records::record_in(&site.records, 59, slot).sent;
        let _ = println!(rt; "place 59 has in slot {slot}: {}", sent.delivered);
    }
}
